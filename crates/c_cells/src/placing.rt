//! Writes the cells of a grid into places that C passes.
ghost use Rattle.std.specs.List.{flat_map};
ghost use Rattle.std.specs.Prelude.{◌≡◌, ◌<◌, ◌≤◌, ◌⊎◌, map};
ghost use Rattle.c_calls.specs.Codes.{OK, RANGE};
ghost use Rattle.c_calls.specs.Places.{with_items};
ghost use Rattle.c_cells.specs.Cells.{c_cell};
ghost use Rattle.vt_grid.specs.Grid.{row_at};

use crate::VtCell;
use c_calls::code;
use vt_grid::Grid;

/// Writes the cells of the row, if there is one, into the first places.
pub fn put_row(grid: &Grid, row: u32, cells: &mut [VtCell]) -> u8
    ensures { ((result ≡ OK) × (row < grid.now.rows)
        × (cells.new ≡ with_items (map c_cell (row_at grid.now row)) cells.old))
        ⊎ ((result ≡ RANGE) × (grid.now.rows ≤ row) × (cells.new ≡ cells.old)) }
{
    if u32::from(grid.size().rows) <= row {
        return code::RANGE;
    }
    put_cells(grid, row as u8, cells);
    code::OK
}

// Writes the cells of a row into the first places.
fn put_cells(grid: &Grid, y: u8, places: &mut [VtCell])
    requires { y < grid.now.rows }
    ensures { places.new ≡ with_items (map c_cell (row_at grid.now y)) places.old }
{
    let count = usize::from(grid.size().cols).min(places.len());
    let mut n = 0;
    while n < count {
        places[n] = VtCell::of(grid.at(y, n as u8));
        n += 1;
    }
}

/// Writes the cells of all rows into the first places.
pub fn put_all(grid: &Grid, places: &mut [VtCell])
    ensures { places.new ≡ with_items (flat_map (map c_cell) grid.now.cells) places.old }
{
    grid.stays_full();
    let mut n = 0;
    for y in 0..grid.size().rows {
        for cell in grid.row(y) {
            if n < places.len() {
                places[n] = VtCell::of(cell);
                n += 1;
            }
        }
    }
}
