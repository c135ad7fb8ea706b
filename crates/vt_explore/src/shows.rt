//! Texts on a console's screen.
ghost use Rattle.std.specs.List.{list_any};
ghost use Rattle.std.specs.Prelude.{◌≡◌, ◌<◌, drop};
ghost use Rattle.vt_explore.specs.Shows.{begins, shows, stands_in};
ghost use Rattle.vt_grid.specs.Grid.{HasPlace, row_at};

use vt_base::ConsoleNo;
use vt_grid::Grid;
use vt_world::World;

/// Whether a row of the console's screen has this text.
pub(crate) fn shows(after: &World, n: ConsoleNo, text: &[u8]) -> bool
    ensures { result ≡ shows after.now n text.now }
{
    match after.screen(n) {
        Some(screen) => grid_shows(screen.grid(), text),
        None => false,
    }
}

// Whether a row has this text.
fn grid_shows(grid: &Grid, text: &[u8]) -> bool
    ensures { result ≡ list_any (stands_in text.now) grid.now.cells }
{
    let size = grid.size();
    for y in 0..size.rows {
        if row_shows(grid, y, text) {
            return true;
        }
    }
    false
}

// Whether row `y` has this text.
fn row_shows(grid: &Grid, y: u8, text: &[u8]) -> bool
    requires { y < grid.now.rows }
    ensures { result ≡ stands_in text.now (row_at grid.now y) }
{
    let size = grid.size();
    for x in 0..size.cols {
        if begins_at(grid, y, x, text) {
            return true;
        }
    }
    false
}

// Whether row `y` has this text from column `x` on.
fn begins_at(grid: &Grid, y: u8, x: u8, text: &[u8]) -> bool
    requires { HasPlace grid.now y x }
    ensures { result ≡ begins text.now (drop x (row_at grid.now y)) }
{
    let size = grid.size();
    let mut at = x;
    for code in text {
        if size.cols <= at {
            return false;
        }
        if grid.at(y, at).code != u32::from(*code) {
            return false;
        }
        at += 1;
    }
    true
}
