//! The next row of a text, with its joins.
ghost use Rattle.std.specs.Prelude.{◌≡◌, ◌≢◌, ◌+◌, ◌<◌, ◌≤◌, [], ◌∷◌, cond, drop, length, IsTrue, IfOk};
ghost use Rattle.key_text.specs.Cut.{end_len, join_len};
ghost use Rattle.key_text.specs.Rows.{put_at, row_of, rows_of};

use crate::placed::{Place, Placed};
use vt_base::NoMemory;

/// The end of a row that was read: the place after its last byte, and the start of the next row, if there is
/// one.
#[derive(Clone, Copy)]
pub(crate) struct LogicalLine {
    pub end: Place,
    pub more: bool,
    pub at: usize,
    pub place: Place,
}

/// Reads a row into `items`, in place of what they hold: its bytes without the joins. `at` is where
/// it starts in the text, and `place` is the place there.
pub(crate) fn next_row(
    text: &[u8],
    at: usize,
    place: Place,
    items: &mut Vec<Placed>,
) -> Result<LogicalLine, NoMemory>
    requires { at ≤ length text.now }
    ensures rows { IfOk result (λ row. rows_of place (drop at text.now)
        ≡ row_of items.new.items row.end
        ∷ cond row.more (rows_of row.place (drop row.at text.now)) []) }
    ensures goes { IfOk result (λ row. IsTrue row.more → at < row.at) }
    ensures within { IfOk result (λ row. row.at ≤ length text.now) }
{
    items.clear();
    let mut end = place;
    let mut here = place;
    let mut i = at;
    while i < text.len() {
        let ended = end_len(text, i);
        if ended != 0 {
            return Ok(LogicalLine {
                end: here,
                more: true,
                at: i + ended,
                place: here.next_line(),
            });
        }
        let skipped = join_len(text, i);
        if skipped != 0 {
            i += skipped;
            here = here.next_line();
            continue;
        }
        items.push(with_places(here, text[i]))?;
        here = here.after();
        end = here;
        i += 1;
    }
    Ok(LogicalLine {
        end,
        more: false,
        at: i,
        place: here,
    })
}

// The number of bytes of a line's end at `i`: 1 for LF, 2 for CR LF, 0 if there is none.
fn end_len(text: &[u8], i: usize) -> usize
    requires { i ≤ length text.now }
    ensures value { result ≡ end_len (drop i text.now) }
    ensures within { i + result ≤ length text.now }
{
    if i >= text.len() {
        return 0;
    }
    if text[i] == b'\n' {
        return 1;
    }
    if i + 1 < text.len() && text[i] == b'\r' && text[i + 1] == b'\n' {
        return 2;
    }
    0
}

// The number of bytes of a join at `i`: a backslash and the line's end after it.
fn join_len(text: &[u8], i: usize) -> usize
    requires { i < length text.now }
    ensures value { result ≡ join_len (drop i text.now) }
    ensures within { i + result ≤ length text.now }
{
    if text[i] != b'\\' {
        return 0;
    }
    let ended = end_len(text, i + 1);
    if ended == 0 { 0 } else { ended + 1 }
}

fn with_places(here: Place, byte: u8) -> Placed
    ensures { result ≡ put_at here byte }
{
    Placed {
        byte,
        line: here.line,
        column: here.column,
    }
}
