//! The copy of a grid's cells into another size.
ghost use Rattle.std.specs.Prelude.{◌≡◌, ◌<◌, ◌≤◌, min, take};
ghost use Rattle.vt_grid.specs.Grid.{HasCells, resized_grid, row_at, with_run};
ghost use Rattle.vt_grid.specs.Halves.{split_wide, split_wide_rows};

use crate::Grid;

/// Copies the old cell of row `y + skip` and column `x` to row `y` and column `x`, if both exist. The old
/// rows are read as if they were split at `border`, which isn't before the last column that both grids
/// have.
pub(crate) fn copy_cells(fresh: &mut Grid, old: &Grid, skip: u8, border: u8)
    requires { min fresh.old.cols old.now.cols ≤ border }
    ensures { fresh.new ≡ resized_grid (split_wide_rows border old.now) fresh.old skip }
{
    let new = fresh.size();
    let was = old.size();
    let rows = new.rows.min(was.rows.saturating_sub(skip));
    let cols = new.cols.min(was.cols);
    for y in 0..rows {
        copy_row(fresh, old, y, y + skip, cols, border);
    }
}

// Copies the first cells of the old row `from`, split at `border`, to row `y`.
fn copy_row(fresh: &mut Grid, old: &Grid, y: u8, from: u8, cols: u8, border: u8)
    requires run { HasCells fresh.old y 0 cols }
    requires old_run { HasCells old.now from 0 cols }
    requires border { cols ≤ border }
    ensures { fresh.new ≡ with_run fresh.old y 0 (take cols (split_wide border (row_at old.now from))) }
{
    fresh.stays_full();
    let was = old.size();
    fresh.copy_row(y, old, from, cols);
    if border < was.cols {
        if 0 < cols {
            let last = cols - 1;
            fresh.put(y, last, old.at_parted(from, last, border));
        }
    }
}
