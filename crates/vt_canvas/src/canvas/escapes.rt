//! The effect of escape sequences.
ghost use Rattle.std.specs.Prelude.{◌≡◌, ◌==◌, None, if◌then◌else◌};
ghost use Rattle.vt_canvas.specs.Effect.{escape, plain_escape};
ghost use Rattle.vt_canvas.specs.Settings.{alignment_pattern};

use super::Canvas;
use crate::side_effect::SideEffect;

impl Canvas {
    /// Applies an escape sequence. `said` is then its side effect.
    #[inline(always)]
    #[tactic(auto, unfolding(crate::specs::Effect::escape))]
    pub fn escape(&mut self, mid: u8, last: u8, said: &mut SideEffect)
        ensures { escape mid last self.old ≡ record { screen = self.new; said = said.new } }
    {
        said.clear();
        match mid {
            0 => self.plain_escape(last, said),
            b'%' => self.set_coding(last),
            b'#' => self.test(last),
            b'(' => self.designate_g0(last),
            b')' => self.designate_g1(last),
            _ => {}
        }
    }

    #[inline(always)]
    #[tactic(auto, unfolding(crate::specs::Effect::plain_escape, crate::specs::Effect::look_up))]
    fn plain_escape(&mut self, last: u8, said: &mut SideEffect)
        requires { said.old ≡ None }
        ensures { plain_escape last self.old ≡ record { screen = self.new; said = said.new } }
    {
        match last {
            b'c' => self.reset(),
            b'D' => self.linefeed(),
            b'E' => self.next_line(),
            b'H' => self.set_stop(),
            b'M' => self.reverse_linefeed(),
            b'Z' => self.report_device(0, said),
            b'7' => self.save(),
            b'8' => self.restore(),
            b'>' => self.set_keypad(false),
            b'=' => self.set_keypad(true),
            _ => {}
        }
    }

    fn test(&mut self, last: u8)
        ensures { self.new ≡ (if last == 0x38 then alignment_pattern self.old else self.old) }
    {
        if last == b'8' {
            self.align();
        }
    }
}
