//! Whether two pens are the same.
ghost use Rattle.std.specs.Prelude.{◌≡◌, IsTrue};

use crate::Pen;
use vt_cells::{Attr, Look};

impl Pen {
    /// Whether both pens are the same. Nothing is proved of the answer `false`.
    pub fn same(&self, other: &Pen) -> bool
        ensures { IsTrue result → self.now ≡ other.now }
    {
        if !is_same_attr(self.attr, other.attr) {
            return false;
        }
        if !is_same_look(self.look, other.look) {
            return false;
        }
        if self.def_fg != other.def_fg {
            return false;
        }
        if self.def_bg != other.def_bg {
            return false;
        }
        if self.alt != other.alt {
            return false;
        }
        if self.display != other.display {
            return false;
        }
        if self.toggle != other.toggle {
            return false;
        }
        true
    }
}

// Whether both attributes are the same.
fn is_same_attr(attr: Attr, other: Attr) -> bool
    ensures { IsTrue result → attr ≡ other }
{
    attr == other
}

// Whether both looks are the same.
fn is_same_look(look: Look, other: Look) -> bool
    ensures { IsTrue result → look ≡ other }
{
    look == other
}
