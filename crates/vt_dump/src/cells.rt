//! The cells of a grid, written in the form of a dump.
ghost use Rattle.std.specs.Prelude.{◌+◌, ◌*◌, ◌<◌, ◌≤◌};
ghost use Rattle.std.specs.List.{flat_map};
ghost use Rattle.vt_base.specs.Bytes.{Grew};
ghost use Rattle.vt_dump.specs.Dumps.{of_cells};
ghost use Rattle.vt_dump.specs.Forms.{cell_bytes, most_bytes};
ghost use Rattle.vt_grid.specs.Grid.{IsFull, row_at};

use crate::form::{Form, add_cell};
use vt_base::Bytes;
use vt_grid::Grid;

/// Appends all cells in reading order.
pub(crate) fn add_cells(form: Form, g: &Grid, out: &mut Bytes)
    requires { g.now.rows * (g.now.cols * most_bytes form) ≤ out.old.room }
    ensures grew { Grew (of_cells (cell_bytes form) g.now) out.old out.new }
    ensures full { IsFull g.now }
{
    for y in 0..g.size().rows {
        add_row(form, g, y, out);
    }
}

// Appends the cells of a row, from left to right.
fn add_row(form: Form, g: &Grid, y: u8, out: &mut Bytes)
    requires row { y < g.now.rows }
    requires room { g.now.cols * most_bytes form ≤ out.old.room }
    ensures grew { Grew (flat_map (cell_bytes form) (row_at g.now y)) out.old out.new }
    ensures most { out.old.room ≤ out.new.room + g.now.cols * most_bytes form }
{
    g.stays_full();
    for cell in g.row(y) {
        add_cell(form, cell, out);
    }
}
