//! Modes, tab stops, the region, character sets, the pen and the palette.
ghost use Rattle.std.specs.Prelude.{◌≡◌, ◌<◌, ◌≤◌, ◌==◌, if◌then◌else◌};
ghost use Rattle.vt_canvas.specs.Settings.{table_named, clear_stops, each, after_shift, after_sgr, set_stop, with_coding, with_colour, with_g0, with_g1, with_keypad, with_mode, with_pen, with_private_mode, with_region, with_start_palette};
ghost use Rattle.vt_sgr.specs.Sgr.{sgr};
ghost use Rattle.vt_units.specs.ShortSequences.{more_numbers};

use super::Canvas;
use vt_cells::{Palette, attr_byte, erase_byte};
use vt_sgr::{Pen, apply, apply_five, apply_three};
use vt_units::LongSgr;

impl Canvas {
    /// Takes another pen, and computes the bytes that it prints and erases with.
    #[tactic(auto, unfolding(crate::specs::Screen::printed_byte, crate::specs::Screen::erased_byte))]
    pub(super) fn set_pen(&mut self, pen: Pen)
        ensures { self.new ≡ with_pen self.old pen }
    {
        self.attr = attr_byte(&pen.attr, &pen.look);
        self.erase = erase_byte(&pen.attr);
        self.state.pen = pen;
    }

    /// SO and SI: whether G1 is in use, and control characters are shown.
    #[tactic(auto, unfolding(crate::specs::Settings::after_shift))]
    pub(super) fn invoke(&mut self, shift: u8, display: bool)
        requires { shift ≤ 1 }
        ensures { self.new ≡ after_shift shift display self.old }
    {
        self.state.shift = shift;
        self.state.pen = Pen {
            alt: false,
            display,
            toggle: false,
            ..self.state.pen
        };
    }

    /// ESC %: whether text is UTF-8.
    #[tactic(auto, unfolding(crate::specs::Settings::with_coding))]
    pub(super) fn set_coding(&mut self, last: u8)
        ensures { self.new ≡ with_coding last self.old }
    {
        match last {
            b'@' => self.state.utf8 = false,
            b'G' | b'8' => self.state.utf8 = true,
            _ => {}
        }
    }

    /// ESC (: designates G0.
    #[tactic(auto, unfolding(crate::specs::Settings::with_g0))]
    pub(super) fn designate_g0(&mut self, last: u8)
        ensures { self.new ≡ with_g0 last self.old }
    {
        self.state.g0 = table_named(last, self.state.g0);
    }

    /// ESC ): designates G1.
    #[tactic(auto, unfolding(crate::specs::Settings::with_g1))]
    pub(super) fn designate_g1(&mut self, last: u8)
        ensures { self.new ≡ with_g1 last self.old }
    {
        self.state.g1 = table_named(last, self.state.g1);
    }

    /// HTS: sets a tab stop in the cursor's column.
    #[tactic(auto, unfolding(crate::specs::Settings::set_stop))]
    pub(super) fn set_stop(&mut self)
        ensures { self.new ≡ set_stop self.old }
    {
        self.grid.stays_full();
        self.state.stops.set(self.state.x, true);
    }

    /// TBC: clears the tab stop in the cursor's column, or all.
    #[tactic(auto, unfolding(crate::specs::Settings::clear_stops))]
    pub(super) fn clear_stops(&mut self, which: u16)
        ensures { self.new ≡ clear_stops which self.old }
    {
        self.grid.stays_full();
        match which {
            0 => self.state.stops.set(self.state.x, false),
            3 => self.state.stops.clear(),
            _ => {}
        }
    }

    /// DECPAM and DECPNM.
    #[tactic(auto, unfolding(crate::specs::Settings::with_keypad))]
    pub(super) fn set_keypad(&mut self, on: bool)
        ensures { self.new ≡ with_keypad on self.old }
    {
        self.state.keypad = on;
    }

    /// SM and RM: each of these modes on or off.
    pub(super) fn set_modes(&mut self, on: bool, numbers: &[u16])
        ensures { self.new ≡ each (with_mode on) numbers.now self.old }
    {
        for n in numbers {
            self.set_mode(on, *n);
        }
    }

    /// DECSET and DECRST: each of these private modes on or off.
    pub(super) fn set_private_modes(&mut self, on: bool, numbers: &[u16])
        ensures { self.new ≡ each (with_private_mode on) numbers.now self.old }
    {
        for n in numbers {
            self.set_private_mode(on, *n);
        }
    }

    /// DECSTBM: sets the region, by rows that count from 1.
    #[tactic(auto, unfolding(crate::specs::Settings::with_region))]
    pub(super) fn set_region(&mut self, top: u16, bottom: u16)
        requires { 0 < top }
        ensures { self.new ≡ with_region top bottom self.old }
    {
        let rows = u16::from(self.grid.size().rows);
        let last = last_of(bottom, rows);
        if top < last && last <= rows {
            self.state.top = (top - 1) as u8;
            self.state.bottom = (last - 1) as u8;
            self.home();
        }
    }

    /// SGR.
    #[tactic(auto, unfolding(crate::specs::Settings::after_sgr, crate::specs::Screen::printed_byte, crate::specs::Screen::erased_byte))]
    pub(super) fn render(&mut self, params: &[u16])
        ensures { self.new ≡ after_sgr params.now self.old }
    {
        if params.len() > 2 {
            self.render_long_sgr(params);
            return;
        }
        apply(&mut self.state.pen, params);
        self.attr = attr_byte(&self.state.pen.attr, &self.state.pen.look);
        self.erase = erase_byte(&self.state.pen.attr);
    }

    /// SGR of three parameters, or of five.
    #[inline(always)]
    #[tactic(auto, unfolding(crate::specs::Settings::after_sgr, crate::specs::Screen::printed_byte, crate::specs::Screen::erased_byte))]
    pub(super) fn render_more(&mut self, more: LongSgr)
        ensures { self.new ≡ after_sgr (more_numbers more) self.old }
    {
        apply_more(&mut self.state.pen, more);
        self.attr = attr_byte(&self.state.pen.attr, &self.state.pen.look);
        self.erase = erase_byte(&self.state.pen.attr);
    }

    // SGR of more than two parameters. It isn't inlined: then the usual ones save no registers.
    #[inline(never)]
    #[tactic(auto, unfolding(crate::specs::Settings::after_sgr, crate::specs::Screen::printed_byte, crate::specs::Screen::erased_byte))]
    fn render_long_sgr(&mut self, params: &[u16])
        ensures { self.new ≡ after_sgr params.now self.old }
    {
        apply(&mut self.state.pen, params);
        self.attr = attr_byte(&self.state.pen.attr, &self.state.pen.look);
        self.erase = erase_byte(&self.state.pen.attr);
    }

    /// Sets a colour of the palette.
    #[tactic(auto, unfolding(crate::specs::Settings::with_colour))]
    pub(super) fn set_colour(&mut self, n: u8, rgb: (u8, u8, u8))
        ensures { self.new ≡ with_colour n rgb self.old }
    {
        if n < 16 {
            self.state.palette.set(n, rgb);
        }
    }

    /// Makes the palette that of the start.
    #[tactic(auto, unfolding(crate::specs::Settings::with_start_palette))]
    pub(super) fn reset_palette(&mut self)
        ensures { self.new ≡ with_start_palette self.old }
    {
        self.state.palette = Palette::start();
    }

    #[tactic(auto, unfolding(crate::specs::Settings::with_mode))]
    fn set_mode(&mut self, on: bool, n: u16)
        ensures { self.new ≡ with_mode on n self.old }
    {
        match n {
            3 => self.set_display(on),
            4 => self.state.insert = on,
            20 => self.state.newline = on,
            _ => {}
        }
    }

    // DECCRM: whether control characters are shown.
    fn set_display(&mut self, on: bool)
        ensures { self.new ≡ with_pen self.old (record self.old.state.pen { display = on }) }
    {
        self.state.pen = Pen {
            display: on,
            ..self.state.pen
        };
    }

    #[tactic(auto, unfolding(crate::specs::Settings::with_private_mode))]
    fn set_private_mode(&mut self, on: bool, n: u16)
        ensures { self.new ≡ with_private_mode on n self.old }
    {
        match n {
            1 => self.state.cursor = on,
            5 => self.state.reverse = on,
            6 => {
                self.state.origin = on;
                self.home();
            }
            7 => self.state.autowrap = on,
            8 => self.state.repeat = on,
            25 => self.state.visible = on,
            _ => {}
        }
    }
}

#[inline(always)]
fn apply_more(p: &mut Pen, more: LongSgr)
    ensures { p.new ≡ sgr (more_numbers more) p.old }
{
    if more.five {
        apply_five(
            p,
            more.first,
            more.second,
            more.third,
            more.fourth,
            more.fifth,
        );
    } else {
        apply_three(p, more.first, more.second, more.third);
    }
}

// The last row of a region, counted from 1: 0 stands for the screen's last one.
fn last_of(bottom: u16, rows: u16) -> u16
    ensures { result ≡ (if bottom == 0 then rows else bottom) }
{
    if bottom == 0 { rows } else { bottom }
}

// The table that the final byte designates, or the old one if it designates none.
fn table_named(last: u8, old: u8) -> u8
    requires { old < 4 }
    ensures table { result ≡ table_named last old }
    ensures known { result < 4 }
{
    match last {
        b'B' => 0,
        b'0' => 1,
        b'U' => 2,
        b'K' => 3,
        _ => old,
    }
}
