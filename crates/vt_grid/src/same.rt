//! Whether two grids are the same.
ghost use Rattle.std.specs.Prelude.{◌≡◌, IsTrue};

use crate::Grid;

impl Grid {
    /// Whether both have the same size and the same cells. Nothing is proved of the answer `false`.
    pub fn same(&self, other: &Grid) -> bool
        ensures { IsTrue result → self.now ≡ other.now }
    {
        let size = self.size();
        let shape = other.size();
        if size.rows != shape.rows || size.cols != shape.cols {
            return false;
        }
        for y in 0..size.rows {
            if !self.is_row_same(other, y) {
                return false;
            }
        }
        true
    }
}
