//! The line feeds at the start of a text.
ghost use Rattle.std.specs.Prelude.{All, ◌≡◌, ◌≤◌, length, take};

/// How many of the first bytes are line feeds, up to the greatest number of 16 bits.
pub(crate) fn line_feeds(b: &[u8]) -> usize
    ensures feeds { All (λ x. x ≡ 0x0A) (take result b.now) }
    ensures within { result ≤ length b.now }
    ensures bound { result ≤ 0xFFFF }
{
    let most = b.len().min(0xFFFF);
    let mut count = 0;
    while count < most && b[count] == b'\n' {
        count += 1;
    }
    count
}
