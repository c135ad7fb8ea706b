//! Appends one row between bars to a text.
ghost use Rattle.std.specs.Prelude.{◌≡◌, ◌+◌, ◌*◌, ◌<◌, ◌≤◌, ◌∷◌, ◌++◌, [], true};
ghost use Rattle.vt_base.specs.Bytes.{Grew};
ghost use Rattle.vt_dump.specs.Rows.{cell_text, is_printable_ascii, is_shown, row_text};
ghost use Rattle.vt_grid.specs.Grid.{row_at};

use vt_base::Bytes;
use vt_cells::{Cell, HALF};
use vt_grid::Grid;

/// The most bytes of a cell's text.
pub(crate) const CELL_BYTES: usize = 4;

/// The bytes of a row's text in addition to its cells.
pub(crate) const FRAME_BYTES: usize = 3;

/// The most bytes of a row's text if each cell is one byte: 255 cells and the frame.
const RUN_BYTES: usize = 258;

/// Appends the text of a row. Most of its cells have printable characters of ASCII, each of which is its own byte: a
/// run of them is appended at once.
#[tactic(auto, using(crate::proofs::Runs::one_more))]
pub(crate) fn add_row_text(g: &Grid, y: u8, text: &mut Bytes)
    requires row { y < g.now.rows }
    requires room { g.now.cols * CELL_BYTES + FRAME_BYTES ≤ text.old.room }
    ensures bytes { text.new.bytes ≡ text.old.bytes ++ row_text (row_at g.now y) }
    ensures most { text.old.room ≤ text.new.room + (g.now.cols * CELL_BYTES + FRAME_BYTES) }
{
    g.stays_full();
    let mut run = [b'|'; RUN_BYTES];
    let mut count = 1;
    for cell in g.row(y) {
        if is_own_byte(cell) {
            run[count] = cell.code as u8;
            count += 1;
        } else {
            text.append(&run[..count]);
            count = 0;
            add_text(cell, text);
        }
    }
    run[count] = b'|';
    run[count + 1] = b'\n';
    text.append(&run[..count + 2]);
}

/// Whether the cell has a printable character of ASCII: its text is that one byte.
#[tactic(auto, using(crate::proofs::Printables::printable_text))]
pub fn is_own_byte(cell: Cell) -> bool
    ensures ascii { result ≡ is_printable_ascii cell.code }
    ensures text { result ≡ true → cell_text cell ≡ cell.code ∷ [] }
    ensures byte { result ≡ true → cell.code < 256 }
{
    0x20 <= cell.code && cell.code <= 0x7E
}

fn add_text(cell: Cell, out: &mut Bytes)
    requires { CELL_BYTES ≤ out.old.room }
    ensures grew { Grew (cell_text cell) out.old out.new }
    ensures most { out.old.room ≤ out.new.room + CELL_BYTES }
{
    if cell.code == HALF {
        return;
    }
    match char::from_u32(cell.code) {
        Some(c) if is_shown(c) => {
            let mut buffer = [0; 4];
            out.append(c.encode_utf8(&mut buffer).as_bytes());
        }
        _ => out.append(b"?"),
    }
}

/// Whether the character is shown: it is no control character.
pub(crate) fn is_shown(c: char) -> bool
    ensures { result ≡ is_shown c }
{
    matches!(c, ' '..='~' | '\u{A0}'..)
}
