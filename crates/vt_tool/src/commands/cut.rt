ghost use Rattle.std.specs.Prelude.{◌≡◌, ◌≤◌, true, false, drop, length, take};
ghost use Rattle.vt_tool.specs.Commands.Cut.{BeginsLine, HasMark, IsCut, IsMarked};

use vt_journal::version_of;

/// The first word of a certificate (docs/reference/explain.md).
const CERT_MARK: &[u8] = b"%explain ";

/// The mark at the beginning of a line, before which an input is cut.
#[derive(Clone, Copy)]
pub(crate) enum CutMark {
    /// The first line of a journal (docs/reference/journal.md).
    Journal,
    /// The first word of a certificate.
    Certificate,
}

/// An input, cut before the first of its lines that begins with a mark.
#[derive(Clone, Copy)]
pub(crate) struct CutInput<'a> {
    /// The text before that line.
    pub text: &'a [u8],
    /// That line and the text after it; empty if the input has no such line.
    pub after: &'a [u8],
}

/// The input, cut before the first of its lines that begins with the mark.
pub(crate) fn cut(mark: CutMark, input: &[u8]) -> CutInput<'_>
    ensures { IsCut mark input.now result.text.now result.after.now }
{
    for at in 0..input.len() {
        if has_mark_at(mark, input, at) {
            return CutInput {
                text: &input[..at],
                after: &input[at..],
            };
        }
    }
    CutInput {
        text: input,
        after: &[],
    }
}

// A line that begins with the mark begins at this place.
fn has_mark_at(mark: CutMark, input: &[u8], at: usize) -> bool
    requires { at ≤ length input.now }
    ensures yes { result ≡ true → IsMarked mark input.now (take at input.now) (drop at input.now) }
    ensures no { result ≡ false
        → ¬ IsMarked mark input.now (take at input.now) (drop at input.now) }
{
    let (text, after) = input.split_at(at);
    begins_line(text) && has_mark(mark, after)
}

fn begins_line(text: &[u8]) -> bool
    ensures yes { result ≡ true → BeginsLine text.now }
    ensures no { result ≡ false → ¬ BeginsLine text.now }
{
    text.is_empty() || text.ends_with(b"\n".as_slice())
}

fn has_mark(mark: CutMark, text: &[u8]) -> bool
    ensures yes { result ≡ true → HasMark mark text.now }
    ensures no { result ≡ false → ¬ HasMark mark text.now }
{
    match mark {
        CutMark::Journal => version_of(text).is_some(),
        CutMark::Certificate => text.starts_with(CERT_MARK),
    }
}
