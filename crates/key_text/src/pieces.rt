//! The first items of a list, and the items after them.
ghost use Rattle.std.specs.Prelude.{◌≡◌, ◌≤◌, length, take, drop};

/// The first n items.
pub(crate) fn start_of<T>(items: &[T], n: usize) -> &[T]
    requires { n ≤ length items.now }
    ensures { result.now ≡ take n items.now }
{
    &items[..n]
}

/// The items after the first n.
pub(crate) fn rest_of<T>(items: &[T], n: usize) -> &[T]
    requires { n ≤ length items.now }
    ensures { result.now ≡ drop n items.now }
{
    &items[n..]
}
