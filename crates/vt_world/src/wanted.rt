/// The console that a key or a text requests.
#[derive(Clone, Copy, Debug, PartialEq, Eq)]
pub(crate) enum Wanted {
    /// The console of this number, if it is one.
    Number(u16),
    /// The previous console.
    Last,
    /// The nearest allocated console above the one in front; 1 follows 63.
    Above,
    /// The nearest allocated console below the one in front; 63 follows 1.
    Below,
}
