mod same;

use std::marker::Model;
use vt_cells::{Attr, Look};

/// How text is written: its attributes, the colours that a reset takes, and how bytes are mapped
/// (console_codes(4), "ECMA-48 Select Graphic Rendition").
#[derive(Clone, Copy, Debug)]
pub struct Pen {
    pub attr: Attr,
    pub look: Look,
    /// The default colour of characters, below 16.
    pub def_fg: u8,
    /// The default background colour, below 8.
    pub def_bg: u8,
    /// Whether the null mapping is selected.
    pub alt: bool,
    /// Whether control characters are displayed.
    pub display: bool,
    /// Whether the high bit of a byte is toggled before it is mapped.
    pub toggle: bool,
}

impl Model for Pen {
    ghost use Rattle.std.specs.Prelude.{◌<◌};
    ghost use Rattle.vt_sgr.specs.PenState.{PenState};

    ghost Value = { PenState };

    ghost view = { λ p. record {
      attr = p.attr;
      look = p.look;
      def_fg = p.def_fg;
      def_bg = p.def_bg;
      alt = p.alt;
      display = p.display;
      toggle = p.toggle;
    } };

    ghost invariant = { λ p. (p.def_fg < 16) × (p.def_bg < 8) };

    ghost inverse = { λ s. record {
      attr = s.attr;
      look = s.look;
      def_fg = s.def_fg;
      def_bg = s.def_bg;
      alt = s.alt;
      display = s.display;
      toggle = s.toggle;
    } };
}
