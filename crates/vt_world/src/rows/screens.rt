//! Screens: their settings and their dumps.
ghost use Rattle.std.specs.Prelude.{◌≡◌, ◌+◌, ◌≤◌, ◌++◌, ◌&&◌, length};
ghost use Rattle.call_bytes.specs.Colours.{colours_text};
ghost use Rattle.call_bytes.specs.Words.{words_text};
ghost use Rattle.vt_events.specs.Charge.{greatest_dump};
ghost use Rattle.vt_events.specs.declared.event.Event.TheVariants as event;
ghost use Rattle.vt_grid.specs.Grid.{IsFull};
ghost use Rattle.vt_procs.specs.Callers.{has_open};
ghost use Rattle.vt_world.specs.Rows.{dump_of, screen_bytes};
ghost use Rattle.vt_world.specs.Lent.{answer_of, grid_after};
ghost use Rattle.vt_world.specs.Spare.{HasGrid, extent, is_console, is_extent, needed_grid};
ghost use Rattle.vt_world.specs.Step.{HasRowResult, own_row_result, text_of_answer};
ghost use Rattle.vt_world.specs.Terminals.{terminal_at};
ghost use Rattle.vt_world.specs.Refusals.{caller, console_by_number, sees};

use crate::World;
use crate::rows::answers::emptied;
use crate::rows::refusals::check_sense;
use call_bytes::{add_colours, add_words, read_colours, read_words};
use vt_base::{Bytes, CallerNo, ConsoleNo, Errno};
use vt_dump::{codes, vcs, vcsa};
use vt_events::Reply;
use vt_grid::Grid;
use vt_screen::Emu;

/// The greatest number of a kind of dump.
const LAST_KIND: u16 = 2;

impl World {
    /// Resizes the screen of the descriptor's console (ioctl_console(2), VT_RESIZE).
    pub(crate) fn resize(
        &mut self,
        p: CallerNo,
        fd: u16,
        rows: u16,
        cols: u16,
        grid: &mut Option<Grid>,
    ) -> Result<Reply, Errno>
        requires { HasGrid (needed_grid (extent self.old.rows self.old.cols) (event.Resize fd rows cols)) grid.old }
        ensures effect { HasRowResult (own_row_result self.old p (event.Resize fd rows cols)) self.new result }
        ensures grid { grid.new ≡ grid_after self.old p (event.Resize fd rows cols) (answer_of result) grid.old }
    {
        let c = self.owned_console(p, fd)?;
        check_sense(is_extent(rows, cols))?;
        let Some(fresh) = grid.take() else {
            unreachable!()
        };
        *grid = Some(self.terminals.resize(c, fresh));
        Ok(Reply::Done)
    }

    /// Sets the user's table of the descriptor's console (ioctl_console(2), PIO_UNISCRNMAP).
    pub(crate) fn set_map(&mut self, p: CallerNo, fd: u16, b: &Bytes) -> Result<Reply, Errno>
        ensures { HasRowResult (own_row_result self.old p (event.SetMap fd b.now)) self.new result }
    {
        let c = self.owned_console(p, fd)?;
        let words = read_words(b.as_slice()).ok_or(Errno::Inval)?;
        self.terminals.set_user(c, &words);
        Ok(Reply::Done)
    }

    /// The user's table of the descriptor's console (ioctl_console(2), GIO_UNISCRNMAP).
    pub(crate) fn get_map(&mut self, p: CallerNo, fd: u16, reply: Bytes) -> Result<Reply, Errno>
        requires { 512 ≤ reply.room }
        ensures effect { HasRowResult (own_row_result self.old p (event.GetMap fd)) self.new result }
        ensures bytes { length (text_of_answer result) ≤ 512 }
    {
        let c = self.opened(p, fd)?;
        let mut reply = emptied(reply);
        self.add_map(c, &mut reply);
        Ok(Reply::Text(reply))
    }

    /// Sets the palette of the descriptor's console (ioctl_console(2), PIO_CMAP).
    pub(crate) fn set_palette(&mut self, p: CallerNo, fd: u16, b: &Bytes) -> Result<Reply, Errno>
        ensures { HasRowResult (own_row_result self.old p (event.SetPal fd b.now)) self.new result }
    {
        let c = self.owned_console(p, fd)?;
        let colours = read_colours(b.as_slice()).ok_or(Errno::Inval)?;
        self.terminals.set_palette(c, colours);
        Ok(Reply::Done)
    }

    /// The palette of the descriptor's console (ioctl_console(2), GIO_CMAP).
    pub(crate) fn get_palette(&mut self, p: CallerNo, fd: u16, reply: Bytes) -> Result<Reply, Errno>
        requires { 48 ≤ reply.room }
        ensures effect { HasRowResult (own_row_result self.old p (event.GetPal fd)) self.new result }
        ensures bytes { length (text_of_answer result) ≤ 48 }
    {
        let c = self.opened(p, fd)?;
        let mut reply = emptied(reply);
        self.add_palette(c, &mut reply);
        Ok(Reply::Text(reply))
    }

    /// The screen of console `n`, or of the one in front if `n` is 0 (vcs(4)).
    pub(crate) fn dump(
        &mut self,
        p: CallerNo,
        kind: u16,
        n: u16,
        reply: Bytes,
    ) -> Result<Reply, Errno>
        requires { greatest_dump kind ≤ reply.room }
        ensures effect { HasRowResult (own_row_result self.old p (event.Dump kind n)) self.new result }
        ensures bytes { length (text_of_answer result) ≤ greatest_dump kind }
    {
        if !self.sees(p, n) {
            return Err(Errno::Perm);
        }
        let c = self.named(n).ok_or(Errno::Nxio)?;
        if kind > LAST_KIND || !self.switch.allocated(c) {
            return Err(Errno::Inval);
        }
        let mut reply = emptied(reply);
        self.add_dump(kind, c, &mut reply);
        Ok(Reply::Text(reply))
    }

    // Appends the user's table of the console's screen, if it has one.
    fn add_map(&self, c: ConsoleNo, out: &mut Bytes)
        requires { 512 ≤ out.old.room }
        ensures bytes { out.new.bytes ≡ out.old.bytes
            ++ screen_bytes (λ s. words_text s.state.map) (terminal_at self.now.terminals c) }
        ensures len { length out.new.bytes ≤ length out.old.bytes + 512 }
    {
        if let Some(terminal) = self.terminals.at(c) {
            add_words(terminal.emu().state().map.user(), out);
        }
    }

    // Appends the palette of the console's screen, if it has one.
    fn add_palette(&self, c: ConsoleNo, out: &mut Bytes)
        requires { 48 ≤ out.old.room }
        ensures bytes { out.new.bytes ≡ out.old.bytes
            ++ screen_bytes (λ s. colours_text s.state.palette) (terminal_at self.now.terminals c) }
        ensures len { length out.new.bytes ≤ length out.old.bytes + 48 }
    {
        if let Some(terminal) = self.terminals.at(c) {
            add_colours(&terminal.emu().state().palette, out);
        }
    }

    // Whether `p` is privileged, or has the console open that the number names.
    fn sees(&self, p: CallerNo, n: u16) -> bool
        ensures { result ≡ sees self.now p (console_by_number self.now n) }
    {
        self.procs.privileged(p) || self.has_named(p, n)
    }

    // Whether `p` has the console open that the number names.
    fn has_named(&self, p: CallerNo, n: u16) -> bool
        ensures { result ≡ (is_console (console_by_number self.now n)
            && has_open (caller self.now p).opens (console_by_number self.now n)) }
    {
        let Some(c) = self.named(n) else {
            return false;
        };
        c.stays_in_range();
        self.procs.has_open(p, c)
    }

    // Appends a dump of the console's screen, if it has one.
    fn add_dump(&self, kind: u16, c: ConsoleNo, out: &mut Bytes)
        requires kind { kind ≤ LAST_KIND }
        requires room { greatest_dump kind ≤ out.old.room }
        ensures bytes { out.new.bytes ≡ out.old.bytes
            ++ screen_bytes (dump_of kind) (terminal_at self.now.terminals c) }
        ensures len { length out.new.bytes ≤ length out.old.bytes + greatest_dump kind }
    {
        if let Some(terminal) = self.terminals.at(c) {
            add_screen(kind, terminal.emu(), out);
        }
    }
}

// Appends a dump of the screen.
fn add_screen(kind: u16, emu: &Emu, out: &mut Bytes)
    requires kind { kind ≤ LAST_KIND }
    requires room { greatest_dump kind ≤ out.old.room }
    ensures bytes { out.new.bytes ≡ out.old.bytes ++ dump_of kind emu.now.state }
    ensures len { length out.new.bytes ≤ length out.old.bytes + greatest_dump kind }
{
    let grid = emu.grid();
    let state = emu.state();
    stays_in_range(grid);
    match kind {
        0 => vcs(grid, out),
        1 => vcsa(grid, state.x, state.y, state.reverse, out),
        _ => codes(grid, out),
    }
}

// A grid has all its cells, and at most 255 rows and columns.
fn stays_in_range(grid: &Grid)
    ensures full { IsFull grid.now }
    ensures rows { grid.now.rows ≤ 255 }
    ensures cols { grid.now.cols ≤ 255 }
{
    let _size = grid.size();
}

// Whether a screen can have this many rows and columns.
fn is_extent(rows: u16, cols: u16) -> bool
    ensures { result ≡ is_extent rows cols }
{
    (1 <= rows && rows <= 255) && (1 <= cols && cols <= 255)
}
