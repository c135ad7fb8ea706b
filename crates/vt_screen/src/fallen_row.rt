ghost use Rattle.std.specs.Prelude.{◌≡◌, ◌<◌, ◌≤◌, [], length, take};
ghost use Rattle.vt_grid.specs.Grid.{row_at};

use std::marker::Model;
use vt_canvas::BLANK;
use vt_cells::Cell;
use vt_grid::Grid;

/// The most cells of a row.
const MOST_CELLS: usize = 255;

/// A row that fell out, from its left.
#[derive(Drop)]
pub(crate) struct FallenRow {
    cells: [Cell; MOST_CELLS],
    len: usize,
}

impl Model for FallenRow {
    ghost use Rattle.std.specs.Prelude.{◌≤◌, List, take};
    ghost use Rattle.vt_cells.specs.declared.cell.Cell.{Cell};

    ghost Value = { List Cell };

    ghost view = { λ r. take r.len r.cells };

    ghost invariant = { λ r. r.len ≤ 255 };
}

impl FallenRow {
    /// No cells.
    pub(crate) fn new() -> FallenRow
        ensures { result ≡ [] }
    {
        FallenRow {
            cells: [BLANK; MOST_CELLS],
            len: 0,
        }
    }

    /// The cells become those of the first row of the grid.
    pub(crate) fn copy_first_row(&mut self, grid: &Grid)
        requires { 0 < grid.now.rows }
        ensures row { self.new ≡ row_at grid.now 0 }
        ensures wide { length self.new ≡ grid.now.cols }
    {
        self.len = copy_first_row(&mut self.cells, grid);
    }

    /// The cells.
    pub(crate) fn as_slice(&self) -> &[Cell]
        ensures { result.now ≡ self.now }
    {
        &self.cells[..self.len]
    }
}

// The first cells become those of the first row of the grid. Returns their number.
#[inline(always)]
fn copy_first_row(cells: &mut [Cell; MOST_CELLS], grid: &Grid) -> usize
    requires { 0 < grid.now.rows }
    ensures row { take result cells.new ≡ row_at grid.now 0 }
    ensures wide { length (row_at grid.now 0) ≡ grid.now.cols }
    ensures few { result ≤ 255 }
{
    grid.stays_full();
    grid.row(0).write_to(cells)
}
