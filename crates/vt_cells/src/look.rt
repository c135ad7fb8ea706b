use std::marker::Model;

/// The colours that show underline and half-bright, which a text cell can't show otherwise
/// (console_codes(4), "Linux Console Private CSI Sequences"). They are below 16, counted as those
/// of [`crate::Attr`].
#[derive(Clone, Copy, Debug, PartialEq, Eq)]
pub struct Look {
    /// The colour of underlined characters.
    pub ul: u8,
    /// The colour of half-bright characters.
    pub dim: u8,
}

impl Model for Look {
    ghost use Rattle.std.specs.Prelude.{◌<◌};
    ghost use Rattle.vt_cells.specs.Rendition.{Tints};

    ghost Value = { Tints };

    ghost view = { λ l. record { ul = l.ul; dim = l.dim } };

    ghost invariant = { λ l. (l.ul < 16) × (l.dim < 16) };

    ghost inverse = { λ t. record { ul = t.ul; dim = t.dim } };
}
