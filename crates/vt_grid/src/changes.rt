//! Differences between two grids of one size, for a program that draws: the rows that have to be drawn
//! again, and the copy of the grid that was drawn.
ghost use Rattle.std.specs.Prelude.{◌≡◌, ◌<◌, ◌↔◌, IsTrue};
ghost use Rattle.vt_grid.specs.Grid.{row_at};

use crate::Grid;

impl Grid {
    /// Whether row `y` has the same cells in both grids.
    pub fn is_row_same(&self, other: &Grid, y: u8) -> bool
        requires row { y < self.now.rows }
        requires other_row { y < other.now.rows }
        ensures { IsTrue result ↔ (row_at self.now y ≡ row_at other.now y) }
    {
        self.row(y).is_same(other.row(y))
    }

    /// Becomes the other grid, which has its size.
    pub fn copy_from(&mut self, other: &Grid)
        requires rows { self.old.rows ≡ other.now.rows }
        requires columns { self.old.cols ≡ other.now.cols }
        ensures { self.new ≡ other.now }
    {
        let size = self.size();
        other.stays_full();
        for y in 0..size.rows {
            self.copy_row(y, other, y, size.cols);
        }
    }
}
