//! Whether two palettes are the same, and the copy of one into the other.
ghost use Rattle.std.specs.Prelude.{◌≡◌, IsTrue, length};

use crate::Palette;

impl Palette {
    /// Whether both palettes are the same. Nothing is proved of the answer `false`.
    pub fn same(&self, other: &Palette) -> bool
        ensures { IsTrue result → self.now ≡ other.now }
    {
        are_same_colours(&self.colours, &other.colours)
    }

    /// Becomes the other palette.
    pub fn copy_from(&mut self, other: &Palette)
        ensures { self.new ≡ other.now }
    {
        self.colours = other.colours;
    }
}

// Whether all colours are the same.
fn are_same_colours(colours: &[(u8, u8, u8)], others: &[(u8, u8, u8)]) -> bool
    requires { length colours.now ≡ length others.now }
    ensures { IsTrue result → colours.now ≡ others.now }
{
    for i in 0..colours.len() {
        if !is_same_colour(colours[i], others[i]) {
            return false;
        }
    }
    true
}

// Whether both colours are the same.
fn is_same_colour(colour: (u8, u8, u8), other: (u8, u8, u8)) -> bool
    ensures { IsTrue result → colour ≡ other }
{
    colour.0 == other.0 && colour.1 == other.1 && colour.2 == other.2
}
