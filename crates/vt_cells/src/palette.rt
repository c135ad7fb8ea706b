ghost use Rattle.std.specs.Prelude.{◌≡◌, ◌<◌, length, slice_get, slice_set, Some};
ghost use Rattle.vt_cells.specs.Colours.{AreBytes, start_palette};

mod same;

use crate::rgb_of;
use std::marker::Model;

/// The colours of a console: red, green and blue for each of 16 numbers (console_codes(4), "ESC ] P").
#[derive(Debug, Drop)]
pub struct Palette {
    colours: [(u8, u8, u8); 16],
}

impl Model for Palette {
    ghost use Rattle.std.specs.Prelude.{◌≡◌, List, length};
    ghost use Rattle.vt_cells.specs.Colours.{AreBytes, Rgb};

    ghost Value = { List Rgb };

    ghost view = { λ p. p.colours };

    ghost invariant = { λ p. (length p.colours ≡ 16) × AreBytes p.colours };
}

impl Palette {
    /// The colours of the indices 0 to 15.
    pub fn start() -> Palette
        ensures { result ≡ start_palette }
    {
        Palette {
            colours: [
                rgb_of(0),
                rgb_of(1),
                rgb_of(2),
                rgb_of(3),
                rgb_of(4),
                rgb_of(5),
                rgb_of(6),
                rgb_of(7),
                rgb_of(8),
                rgb_of(9),
                rgb_of(10),
                rgb_of(11),
                rgb_of(12),
                rgb_of(13),
                rgb_of(14),
                rgb_of(15),
            ],
        }
    }

    /// Red, green and blue of a number.
    pub fn get(&self, n: u8) -> (u8, u8, u8)
        requires { n < 16 }
        ensures { slice_get self.now n ≡ Some result }
    {
        self.colours[usize::from(n)]
    }

    /// Red, green and blue of all numbers in order.
    pub fn as_slice(&self) -> &[(u8, u8, u8)]
        ensures colours { result.now ≡ self.now }
        ensures whole { length self.now ≡ 16 }
        ensures bytes { AreBytes self.now }
    {
        &self.colours
    }

    /// Sets one number's colour.
    pub fn set(&mut self, n: u8, rgb: (u8, u8, u8))
        requires { n < 16 }
        ensures { self.new ≡ slice_set self.old n rgb }
    {
        self.colours[usize::from(n)] = rgb;
    }
}
