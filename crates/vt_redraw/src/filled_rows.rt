//! Rows whose cells are all the same, and the other rows.
ghost use Rattle.std.specs.Prelude.{◌≡◌, ◌<◌, ◌++◌, replicate, OnOk};
ghost use Rattle.vt_grid.specs.Grid.{row_at};
ghost use Rattle.vt_redraw.specs.Cells.{are_same, changed_rows};

use crate::cells::add_row;
use std::alloc::Global;
use vt_base::{Bytes, NoMemory};
use vt_cells::Cell;
use vt_grid::Grid;

/// Adds the rows that aren't filled with this cell.
pub(crate) fn add_rows_but(
    alloc: Global,
    text: &mut Bytes,
    g: &Grid,
    c: Cell,
) -> Result<(), NoMemory>
    ensures { OnOk result (text.new.bytes
        ≡ text.old.bytes
        ++ changed_rows 0 (replicate g.now.rows (replicate g.now.cols c)) g.now.cells) }
{
    for y in 0..g.size().rows {
        if !is_row_filled(g, y, c) {
            add_row(alloc, text, g, y)?;
        }
    }
    Ok(())
}

// Whether each cell of a row is this one.
fn is_row_filled(g: &Grid, y: u8, c: Cell) -> bool
    requires { y < g.now.rows }
    ensures { result ≡ are_same (replicate g.now.cols c) (row_at g.now y) }
{
    g.stays_full();
    for cell in g.row(y) {
        if c.code != cell.code || c.attr != cell.attr {
            return false;
        }
    }
    true
}
