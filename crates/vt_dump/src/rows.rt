//! The rows of a screen as one text with bars and line ends.
ghost use Rattle.std.specs.Prelude.{◌≡◌, ◌+◌, ◌*◌, ◌<◌, ◌≤◌, ◌++◌, IfOk, OnErr, OnOk};
ghost use Rattle.vt_dump.specs.Rows.{row_text, rows_text};
ghost use Rattle.vt_grid.specs.Grid.{row_at};

use crate::texts::{CELL_BYTES, FRAME_BYTES, add_row_text};
use std::alloc::Global;
use vt_base::{Bytes, NoMemory};
use vt_grid::Grid;

/// The rows as text: each is `|`, the characters of its cells in UTF-8, `|` and LF. A code of a control
/// character or of no character is shown as `?`, and a right half as nothing. This project's own.
pub fn text_rows(alloc: Global, g: &Grid) -> Result<Bytes, NoMemory>
    ensures { IfOk result (λ text. text.bytes ≡ rows_text g.now.cells) }
{
    let mut text = Bytes::new(alloc);
    add_rows(alloc, &mut text, g)?;
    Ok(text)
}

/// One row as text, as [`text_rows`] writes it.
pub fn text_row(alloc: Global, g: &Grid, y: u8) -> Result<Bytes, NoMemory>
    requires { y < g.now.rows }
    ensures { IfOk result (λ text. text.bytes ≡ row_text (row_at g.now y)) }
{
    let mut text = Bytes::with_room(alloc, usize::from(g.size().cols) * CELL_BYTES + FRAME_BYTES)?;
    add_row_text(g, y, &mut text);
    Ok(text)
}

/// Adds one row as text, as [`text_rows`] writes it.
pub fn add_row(alloc: Global, text: &mut Bytes, g: &Grid, y: u8) -> Result<(), NoMemory>
    requires { y < g.now.rows }
    ensures ok { OnOk result (text.new.bytes ≡ text.old.bytes ++ row_text (row_at g.now y)) }
    ensures err { OnErr result (text.new ≡ text.old) }
{
    text.grow(alloc, usize::from(g.size().cols) * CELL_BYTES + FRAME_BYTES)?;
    add_row_text(g, y, text);
    Ok(())
}

/// Adds the text of the rows.
pub fn add_rows(alloc: Global, text: &mut Bytes, g: &Grid) -> Result<(), NoMemory>
    ensures ok { OnOk result (text.new.bytes ≡ text.old.bytes ++ rows_text g.now.cells) }
    ensures err { OnErr result (text.new ≡ text.old) }
{
    let size = g.size();
    let row = usize::from(size.cols) * CELL_BYTES + FRAME_BYTES;
    text.grow(alloc, usize::from(size.rows) * row)?;
    for y in 0..size.rows {
        add_row_text(g, y, text);
    }
    Ok(())
}
