//! Reports, lights, and the settings of CSI ].
ghost use Rattle.std.specs.Prelude.{◌≡◌, ◌≤◌, ◌+◌, ◌-◌, ◌∷◌, length, nat_lt, if◌then◌else◌};
ghost use Rattle.vt_canvas.specs.declared.out.Out.TheVariants.{Report};
ghost use Rattle.vt_canvas.specs.Saying.{console_setting, cursor_text, device_report, lights, status_report, with_default_pair, with_dim_colour, with_underline_colour};

use super::Canvas;
use crate::report_text::push_decimal;
use crate::side_effect::SideEffect;
use crate::{Out, ReportText};
use vt_cells::Look;
use vt_sgr::Pen;

impl Canvas {
    /// DA: the kind of the terminal, a VT102.
    #[inline(never)]
    #[tactic(auto, unfolding(crate::specs::Saying::device_report))]
    pub(super) fn report_device(&self, which: u16, said: &mut SideEffect)
        ensures { device_report which self.now ≡ record { screen = self.now; said = said.new } }
    {
        match which {
            0 => said.set(report(b"[?6c")),
            _ => said.clear(),
        }
    }

    /// DSR: the status of the terminal, or the cursor's place.
    #[inline(never)]
    #[tactic(auto, unfolding(crate::specs::Saying::status_report))]
    pub(super) fn report_status(&self, which: u16, said: &mut SideEffect)
        ensures { status_report which self.now ≡ record { screen = self.now; said = said.new } }
    {
        match which {
            5 => said.set(report(b"[0n")),
            6 => said.set(self.cursor_report()),
            _ => said.clear(),
        }
    }

    /// DECLL: sets the keyboard's lights.
    #[inline(never)]
    #[tactic(auto, unfolding(crate::specs::Saying::lights))]
    pub(super) fn report_lights(&self, which: u16, said: &mut SideEffect)
        ensures { lights which self.now ≡ record { screen = self.now; said = said.new } }
    {
        match which {
            0 => said.set(Out::Lights(0)),
            1 => said.set(Out::Lights(1)),
            2 => said.set(Out::Lights(2)),
            3 => said.set(Out::Lights(4)),
            _ => said.clear(),
        }
    }

    /// CSI ]: settings of the console, and requests for another one.
    #[inline(never)]
    #[tactic(auto, unfolding(crate::specs::Saying::console_setting))]
    pub(super) fn set_console(&mut self, which: u16, value: u16, said: &mut SideEffect)
        ensures { console_setting which value self.old ≡ record { screen = self.new; said = said.new } }
    {
        said.clear();
        match which {
            1 => self.set_underline_colour(value),
            2 => self.set_dim_colour(value),
            8 => self.set_default_pair(),
            12 if 1 <= value && value <= 63 => said.set(Out::SwitchTo(value as u8)),
            15 => said.set(Out::SwitchLast),
            _ => {}
        }
    }

    // CPR: the cursor's row and column, from 1.
    fn cursor_report(&self) -> Out
        ensures { result ≡ Report (0x1B ∷ cursor_text self.now) }
    {
        self.grid.stays_full();
        let mut text = ReportText::new();
        text.push(0x1B);
        text.push(b'[');
        push_decimal(&mut text, self.reported_row());
        text.push(b';');
        push_decimal(&mut text, self.state.x + 1);
        text.push(b'R');
        Out::Report(text)
    }

    // The row that is reported, from 1.
    fn reported_row(&self) -> u8
        ensures { result ≡ (if self.now.state.origin then self.now.state.y - self.now.state.top else self.now.state.y) + 1 }
    {
        self.grid.stays_full();
        if self.state.origin {
            self.state.y.saturating_sub(self.state.top) + 1
        } else {
            self.state.y + 1
        }
    }

    fn set_underline_colour(&mut self, n: u16)
        ensures { self.new ≡ (if nat_lt n 16 then with_underline_colour n self.old else self.old) }
    {
        if n < 16 {
            let pen = self.state.pen;
            let look = Look {
                ul: n as u8,
                dim: pen.look.dim,
            };
            self.set_pen(Pen { look, ..pen });
        }
    }

    fn set_dim_colour(&mut self, n: u16)
        ensures { self.new ≡ (if nat_lt n 16 then with_dim_colour n self.old else self.old) }
    {
        if n < 16 {
            let pen = self.state.pen;
            let look = Look {
                ul: pen.look.ul,
                dim: n as u8,
            };
            self.set_pen(Pen { look, ..pen });
        }
    }

    fn set_default_pair(&mut self)
        ensures { self.new ≡ with_default_pair self.old }
    {
        let pen = self.state.pen;
        self.set_pen(Pen {
            def_fg: pen.attr.fg,
            def_bg: pen.attr.bg,
            ..pen
        });
    }
}

// ESC and these bytes.
fn report(text: &[u8]) -> Out
    requires { length text.now ≤ 15 }
    ensures { result ≡ Report (0x1B ∷ text.now) }
{
    let mut report = ReportText::new();
    report.push(0x1B);
    report.extend(text);
    Out::Report(report)
}
