ghost use Rattle.std.specs.Prelude.{◌≡◌, ◌≢◌, ℕ, ◌<◌, length, slice_index, IfSome, IfNone};
ghost use Rattle.vt_journal.specs.Lines.{IsCutAt, IsLine};

/// A text cut at its first LF.
#[derive(Clone, Copy)]
pub struct CutLine<'a> {
    /// The text before the LF.
    pub line: &'a [u8],
    /// The text after it.
    pub behind: &'a [u8],
}

/// The text cut at its first LF, if it has one.
pub fn cut_line(text: &[u8]) -> Option<CutLine<'_>>
    ensures found { IfSome result (λ cut. IsCutAt text.now cut.line.now cut.behind.now) }
    ensures none { IfNone result (IsLine text.now) }
{
    let i = first_end(text)?;
    Some(CutLine {
        line: &text[..i],
        behind: &text[i + 1..],
    })
}

// The index of the first LF.
fn first_end(text: &[u8]) -> Option<usize>
    ensures within { IfSome result (λ i. i < length text.now) }
    ensures here { IfSome result (λ i. slice_index text.now i ≡ 0x0A) }
    ensures first { IfSome result (λ i. (k : ℕ) → k < i → slice_index text.now k ≢ 0x0A) }
    ensures none { IfNone result (IsLine text.now) }
{
    for (i, b) in text.iter().enumerate() {
        if *b == b'\n' {
            return Some(i);
        }
    }
    None
}
