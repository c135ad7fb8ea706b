use crate::Intensity;
use std::marker::Model;

/// How a character is written (console_codes(4), "ECMA-48 Select Graphic Rendition"). Colours are
/// counted red 1, green 2, blue 4 and bright 8.
#[derive(Clone, Copy, Debug, PartialEq, Eq)]
pub struct Attr {
    /// The colour of the character, below 16.
    pub fg: u8,
    /// The colour of the background, below 8.
    pub bg: u8,
    pub intensity: Intensity,
    pub italic: bool,
    pub underline: bool,
    pub blink: bool,
    pub reverse: bool,
}

impl Model for Attr {
    ghost use Rattle.std.specs.Prelude.{◌<◌};
    ghost use Rattle.vt_cells.specs.Rendition.{Rendition};

    ghost Value = { Rendition };

    ghost view = { λ a. record {
      fg = a.fg;
      bg = a.bg;
      intensity = a.intensity;
      italic = a.italic;
      underline = a.underline;
      blink = a.blink;
      reverse = a.reverse;
    } };

    ghost invariant = { λ a. (a.fg < 16) × (a.bg < 8) };

    ghost inverse = { λ r. record {
      fg = r.fg;
      bg = r.bg;
      intensity = r.intensity;
      italic = r.italic;
      underline = r.underline;
      blink = r.blink;
      reverse = r.reverse;
    } };
}
