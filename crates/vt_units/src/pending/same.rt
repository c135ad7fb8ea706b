//! Whether two unfinished texts are the same, and the copy of one into the other.
ghost use Rattle.std.specs.Prelude.{◌≡◌, IsTrue};

use crate::Pending;

impl Pending {
    /// Whether both are the same. Nothing is proved of the answer `false`.
    pub fn same(&self, other: &Pending) -> bool
        ensures { IsTrue result → self.now ≡ other.now }
    {
        self.mode.utf8 == other.mode.utf8
            && self.mode.display == other.mode.display
            && are_same_bytes(self.text.as_slice(), other.text.as_slice())
    }

    /// Becomes the other.
    pub fn copy_from(&mut self, other: &Pending)
        ensures { self.new ≡ other.now }
    {
        self.mode = other.mode;
        self.stage = other.stage;
        self.text.copy_from(&other.text);
    }
}

// Whether all bytes are the same.
fn are_same_bytes(text: &[u8], other: &[u8]) -> bool
    ensures { IsTrue result → text.now ≡ other.now }
{
    text == other
}
