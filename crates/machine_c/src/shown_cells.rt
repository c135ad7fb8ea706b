//! The cells that a terminal shows, as C passes them.
ghost use Rattle.std.specs.Prelude.{◌≡◌, ◌<◌, ◌*◌, false, length, map, IfOk, IsTrue};
ghost use Rattle.std.specs.List.{All};
ghost use Rattle.c_cells.specs.Cells.{HasNoSpare, cell_of};
ghost use Rattle.machine_c.specs.Cells.{AreCellsOf, grid_of};
ghost use Rattle.vt_grid.specs.Grid.{with_row};

use c_cells::VtCell;
use std::alloc::Global;
use vt_base::{NoMemory, Size};
use vt_canvas::BLANK;
use vt_grid::Grid;

/// Whether these are the cells of a terminal that has these columns and the grid's size.
pub(crate) fn are_cells_of(grid: &Grid, cells: &[VtCell], cols: u32) -> bool
    ensures yes { IsTrue result → AreCellsOf grid.now cells.now cols }
    ensures no { result ≡ false → ¬ AreCellsOf grid.now cells.now cols }
{
    let size = grid.size();
    let count = usize::from(size.rows) * usize::from(size.cols);
    u32::from(size.cols) == cols && cells.len() == count && are_plain(cells)
}

// Whether no spare byte is set.
fn are_plain(cells: &[VtCell]) -> bool
    ensures yes { IsTrue result → All HasNoSpare cells.now }
    ensures no { result ≡ false → ¬ All HasNoSpare cells.now }
{
    for i in 0..cells.len() {
        if !cells[i].is_plain() {
            return false;
        }
    }
    true
}

/// A grid of these cells.
pub(crate) fn grid_of(alloc: Global, size: Size, cells: &[VtCell]) -> Result<Grid, NoMemory>
    requires { length cells.now ≡ size.rows * size.cols }
    ensures { IfOk result (λ grid. grid ≡ grid_of size.rows size.cols cells.now) }
{
    let mut grid = Grid::blank(alloc, size, BLANK)?;
    let cols = usize::from(size.cols);
    for y in 0..usize::from(size.rows) {
        let start = y * cols;
        put_row(&mut grid, y as u8, &cells[start..start + cols]);
    }
    Ok(grid)
}

// Sets the cells of a row.
fn put_row(grid: &mut Grid, y: u8, cells: &[VtCell])
    requires row { y < grid.old.rows }
    requires cells { length cells.now ≡ grid.old.cols }
    ensures { grid.new ≡ with_row grid.old y (map cell_of cells.now) }
{
    grid.stays_full();
    for x in 0..cells.len() {
        grid.put(y, x as u8, cells[x].cell());
    }
}
