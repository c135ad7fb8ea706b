use std::marker::Model;
use vt_grid::Grid;
use vt_screen::Emu;

/// The value that a handle owns: a screen, and the marked cells, if any.
#[derive(Drop)]
pub struct OwnedScreen {
    pub(crate) emu: Emu,
    pub(crate) mark: Option<Grid>,
}

impl Model for OwnedScreen {
    ghost use Rattle.screen_c.specs.Held.{OwnedScreenView};

    ghost Value = { OwnedScreenView };

    ghost view = { λ s. record { emu = s.emu; mark = s.mark } };
}
