//! Numbers of two and of four bytes.
ghost use Rattle.std.specs.Prelude.{◌≡◌, ◌+◌, ◌<◌, length};
ghost use Rattle.call_bytes.specs.Numbers.{is_number_at, number_at};

/// The number of 16 bits at a place, the lowest byte first.
pub(crate) fn number_at(b: &[u8], i: usize) -> u16
    requires { i + 1 < length b.now }
    ensures { result ≡ number_at b.now i }
{
    u16::from(b[i]) + 256 * u16::from(b[i + 1])
}

/// Whether the number of four bytes at a place has 16 bits.
pub(crate) fn is_number_at(b: &[u8], i: usize) -> bool
    requires { i + 3 < length b.now }
    ensures { result ≡ is_number_at b.now i }
{
    b[i + 2] == 0 && b[i + 3] == 0
}
