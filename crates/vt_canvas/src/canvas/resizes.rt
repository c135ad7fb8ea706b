//! The change of a screen's size.
ghost use Rattle.std.specs.Prelude.{◌≡◌};
ghost use Rattle.vt_canvas.specs.Change.{resized_to};

use super::Canvas;
use vt_grid::Grid;

impl Canvas {
    /// Takes the size of the fresh grid, and returns the old one.
    #[tactic(auto, unfolding(crate::specs::Change::resized_to))]
    pub fn resize(&mut self, fresh: Grid) -> Grid
        ensures screen { self.new ≡ resized_to fresh.rows fresh.cols self.old }
        ensures old { result ≡ self.old.grid }
    {
        let size = fresh.size();
        self.grid.stays_full();
        let blank = self.blank();
        let skip = (self.state.y + 1).saturating_sub(size.rows);
        self.state.y -= skip;
        self.state.x = self.state.x.min(size.cols - 1);
        self.state.wrap = false;
        self.state.top = 0;
        self.state.bottom = size.rows - 1;
        let mut fresh = fresh;
        fresh.fill(blank);
        let old = self.grid.resized_parted_into(fresh, skip);
        self.grid.stays_full();
        old
    }
}
