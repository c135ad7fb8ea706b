//! The saved cursor, the reset and the alignment pattern.
ghost use Rattle.std.specs.Prelude.{◌≡◌};
ghost use Rattle.vt_canvas.specs.Settings.{alignment_pattern, reset, restore, save};

use super::Canvas;
use crate::screen_state::start_attr;
use crate::{BLANK, Saved};
use vt_cells::Cell;
use vt_sgr::Pen;

impl Canvas {
    /// DECSC: saves the cursor, with its pen and its modes.
    #[tactic(auto, unfolding(crate::specs::Settings::save))]
    pub(super) fn save(&mut self)
        ensures { self.new ≡ save self.old }
    {
        self.state.saved = Saved {
            x: self.state.x,
            y: self.state.y,
            attr: self.state.pen.attr,
            g0: self.state.g0,
            g1: self.state.g1,
            shift: self.state.shift,
        };
    }

    /// DECRC: restores the saved state.
    #[tactic(auto, unfolding(crate::specs::Settings::restore))]
    pub(super) fn restore(&mut self)
        ensures { self.new ≡ restore self.old }
    {
        let saved = self.state.saved;
        self.state.g0 = saved.g0;
        self.state.g1 = saved.g1;
        self.state.shift = saved.shift;
        let pen = Pen {
            attr: saved.attr,
            ..self.state.pen
        };
        self.set_pen(pen);
        self.move_to(u32::from(saved.y), u32::from(saved.x));
    }

    /// RIS: starts again, except for the parts that are kept.
    #[tactic(auto, unfolding(crate::specs::Settings::reset))]
    pub(super) fn reset(&mut self)
        ensures { self.new ≡ reset self.old }
    {
        let pen = Pen {
            attr: start_attr(),
            alt: false,
            display: false,
            toggle: false,
            ..self.state.pen
        };
        self.set_pen(pen);
        self.grid.fill(BLANK);
        self.state.restart(self.grid.size().rows);
    }

    /// DECALN: fills the screen with E.
    #[tactic(auto, unfolding(crate::specs::Settings::alignment_pattern))]
    pub(super) fn align(&mut self)
        ensures { self.new ≡ alignment_pattern self.old }
    {
        let cell = Cell {
            code: u32::from(b'E'),
            attr: self.erase,
        };
        self.grid.fill(cell);
        self.grid.stays_full();
    }
}
