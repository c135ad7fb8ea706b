//! The effect of control characters.
ghost use Rattle.std.specs.Prelude.{◌≡◌};
ghost use Rattle.vt_canvas.specs.Effect.{control};

use super::Canvas;
use crate::Out;
use crate::side_effect::SideEffect;

impl Canvas {
    /// Applies a control character. `said` is then its side effect.
    #[tactic(auto, unfolding(crate::specs::Effect::control, crate::specs::Effect::look_up))]
    pub fn control(&mut self, code: u8, said: &mut SideEffect)
        ensures { control code self.old ≡ record { screen = self.new; said = said.new } }
    {
        said.clear();
        match code {
            0x07 => said.set(Out::Bell),
            0x08 => self.backspace(),
            0x09 => self.tab(),
            0x0A | 0x0B | 0x0C => self.newline(),
            0x0D => self.carriage_return(),
            0x0E => self.invoke(1, true),
            0x0F => self.invoke(0, false),
            _ => {}
        }
    }
}
