//! Whether two keyboards are the same, and the copy of one into the other.
ghost use Rattle.std.specs.Prelude.{◌≡◌, IsTrue};

use crate::Keyboard;

impl Keyboard {
    /// Whether both are the same. Nothing is proved of the answer `false`.
    pub fn same(&self, other: &Keyboard) -> bool
        ensures { IsTrue result → self.now ≡ other.now }
    {
        is_same_number(self.waiting.accent, other.waiting.accent)
            && self.waiting.composing == other.waiting.composing
            && is_same_number(self.number, other.number)
            && self.held.same(&other.held)
    }

    /// Becomes the other.
    pub fn copy_from(&mut self, other: &Keyboard)
        ensures { self.new ≡ other.now }
    {
        self.held.copy_from(&other.held);
        self.waiting = other.waiting;
        self.number = other.number;
    }
}

// Whether both numbers are the same.
fn is_same_number(number: Option<u16>, other: Option<u16>) -> bool
    ensures { IsTrue result → number ≡ other }
{
    match (number, other) {
        (Some(one), Some(two)) => one == two,
        (None, None) => true,
        _ => false,
    }
}
