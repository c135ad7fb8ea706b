//! Whether two screens with their unfinished texts are the same, and the copy of one into the other.
ghost use Rattle.std.specs.Prelude.{◌≡◌, IsTrue};

use crate::Emu;

impl Emu {
    /// Whether both are the same. Nothing is proved of the answer `false`.
    pub fn same(&self, other: &Emu) -> bool
        ensures { IsTrue result → self.now ≡ other.now }
    {
        self.canvas.same(&other.canvas) && self.pending.same(&other.pending)
    }

    /// Becomes the other, which has its size.
    pub fn copy_from(&mut self, other: &Emu)
        requires rows { self.old.state.grid.rows ≡ other.now.state.grid.rows }
        requires columns { self.old.state.grid.cols ≡ other.now.state.grid.cols }
        ensures { self.new ≡ other.now }
    {
        self.canvas.copy_from(&other.canvas);
        self.pending.copy_from(&other.pending);
    }
}
