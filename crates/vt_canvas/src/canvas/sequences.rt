//! The effect of control sequences.
ghost use Rattle.std.specs.Prelude.{◌≡◌, ◌<◌, false, max};
ghost use Rattle.vt_canvas.specs.Effect.{control_sequence, effect, number_at, private_sequence};
ghost use Rattle.vt_canvas.specs.Saying.{without_out};
ghost use Rattle.vt_units.specs.ShortSequences.{more_numbers, numbers_in};
ghost use Rattle.vt_units.specs.declared.unit.Unit.TheVariants.{Csi};

use super::Canvas;
use crate::side_effect::SideEffect;
use vt_units::LongSgr;

impl Canvas {
    /// Applies a control sequence. `said` is then its side effect.
    pub fn dispatch_sequence(
        &mut self,
        private: bool,
        params: &[u16],
        last: u8,
        said: &mut SideEffect,
    )
        ensures { effect (Csi private params.now last) self.old ≡ record { screen = self.new; said = said.new } }
    {
        if private {
            said.clear();
            self.private_sequence(params, last);
        } else {
            let first = number_at(params, 0);
            let second = number_at(params, 1);
            self.control_sequence(first, second, params, last, said);
        }
    }

    /// Applies a control sequence of one parameter, or of two.
    #[inline(always)]
    pub fn dispatch_short_csi(
        &mut self,
        first: u16,
        second: u16,
        both: bool,
        last: u8,
        said: &mut SideEffect,
    )
        ensures { control_sequence (numbers_in first second both) last self.old
            ≡ record { screen = self.new; said = said.new } }
    {
        let params = [first, if both { second } else { 0 }];
        let count = if both { 2 } else { 1 };
        self.control_sequence(first, params[1], &params[..count], last, said);
    }

    /// Applies SGR of three parameters, or of five.
    #[inline(always)]
    #[tactic(auto, unfolding(crate::specs::Effect::control_sequence, crate::specs::Effect::look_up))]
    pub fn dispatch_long_sgr(&mut self, longer: LongSgr)
        ensures { control_sequence (more_numbers longer) 0x6D self.old ≡ without_out self.new }
    {
        self.render_more(longer);
    }

    // The table of control sequences, given the first two parameters and the list of all.
    #[inline(always)]
    #[tactic(auto, unfolding(crate::specs::Effect::control_sequence, crate::specs::Effect::look_up))]
    fn control_sequence(
        &mut self,
        first: u16,
        second: u16,
        params: &[u16],
        last: u8,
        said: &mut SideEffect,
    )
        requires first { first ≡ number_at params.now 0 }
        requires second { second ≡ number_at params.now 1 }
        ensures { control_sequence params.now last self.old ≡ record { screen = self.new; said = said.new } }
    {
        said.clear();
        match last {
            b'@' => self.insert_characters(count_of(first)),
            b'A' => self.move_to(
                self.row().saturating_sub(u32::from(count_of(first))),
                self.column(),
            ),
            b'B' | b'e' => self.move_to(self.row() + u32::from(count_of(first)), self.column()),
            b'C' | b'a' => self.move_to(self.row(), self.column() + u32::from(count_of(first))),
            b'D' => self.move_to(
                self.row(),
                self.column().saturating_sub(u32::from(count_of(first))),
            ),
            b'E' => self.move_to(self.row() + u32::from(count_of(first)), 0),
            b'F' => self.move_to(self.row().saturating_sub(u32::from(count_of(first))), 0),
            b'G' | b'`' => self.move_to(self.row(), u32::from(first.saturating_sub(1))),
            b'H' | b'f' => self.move_to_in_region(
                first.saturating_sub(1),
                u32::from(second.saturating_sub(1)),
            ),
            b'J' => self.erase_display(first),
            b'K' => self.erase_line(first),
            b'L' => self.insert_lines(count_of(first)),
            b'M' => self.delete_lines(count_of(first)),
            b'P' => self.delete_characters(count_of(first)),
            b'X' => self.erase_characters(count_of(first)),
            b'c' => self.report_device(first, said),
            b'd' => self.move_to_in_region(first.saturating_sub(1), self.column()),
            b'g' => self.clear_stops(first),
            b'h' => self.set_modes(true, params),
            b'l' => self.set_modes(false, params),
            b'm' => self.render(params),
            b'n' => self.report_status(first, said),
            b'q' => self.report_lights(first, said),
            b'r' => self.set_region(count_of(first), second),
            b's' => self.save(),
            b'u' => self.restore(),
            b']' => self.set_console(first, second, said),
            _ => {}
        }
    }

    // Applies a control sequence that begins with `?`.
    #[tactic(auto, unfolding(crate::specs::Effect::private_sequence, crate::specs::Effect::look_up))]
    fn private_sequence(&mut self, params: &[u16], last: u8)
        ensures { private_sequence params.now last self.old ≡ without_out self.new }
    {
        match last {
            b'h' => self.set_private_modes(true, params),
            b'l' => self.set_private_modes(false, params),
            _ => {}
        }
    }
}

// A parameter, or 0 if there is none.
fn number_at(params: &[u16], place: usize) -> u16
    ensures { result ≡ number_at params.now place }
{
    params.get(place).copied().unwrap_or(0)
}

// The first parameter, with 0 taken as 1.
#[inline(always)]
fn count_of(first: u16) -> u16
    ensures count { result ≡ max 1 first }
    ensures some { 0 < result }
{
    first.max(1)
}
