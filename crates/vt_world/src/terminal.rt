ghost use Rattle.std.specs.Prelude.{◌≡◌, ◌≤◌, ◌<◌, length, take};
ghost use Rattle.vt_screen.specs.Run.{outs_of_option, outs_of_run};
ghost use Rattle.vt_canvas.specs.Change.{palette, resize, user_map};
ghost use Rattle.vt_world.specs.Terminals.{altered_by, new_terminal, written_on};

use std::marker::Model;
use vt_cells::Palette;
use vt_grid::Grid;
use vt_screen::{Emu, Out, SideEffect};

/// The terminal of a console: its screen, and its count of BELs.
#[derive(Drop)]
pub(crate) struct Terminal {
    emu: Emu,
    bells: u32,
}

impl Model for Terminal {
    ghost use Rattle.std.specs.Prelude.{◌≤◌};
    ghost use Rattle.vt_world.specs.Terminals.{TerminalState};

    ghost Value = { TerminalState };

    ghost view = { λ t. record { emu = t.emu; bells = t.bells } };

    ghost invariant = { λ t. t.bells ≤ 4294967295 };
}

impl Terminal {
    /// The start screen on this grid, and no BEL.
    pub(crate) fn new(grid: Grid) -> Terminal
        ensures { result ≡ new_terminal grid.rows grid.cols }
    {
        Terminal {
            emu: Emu::new(grid),
            bells: 0,
        }
    }

    /// The screen.
    pub(crate) fn emu(&self) -> &Emu
        ensures { result.now ≡ self.now.emu }
    {
        &self.emu
    }

    /// The count of BELs, at most the greatest u32.
    pub(crate) fn bells(&self) -> u32
        ensures { result ≡ self.now.bells }
    {
        self.bells
    }

    /// Becomes the other, whose screen has the size of this one's.
    pub(crate) fn copy_from(&mut self, other: &Terminal)
        requires rows { self.old.emu.state.grid.rows ≡ other.now.emu.state.grid.rows }
        requires columns { self.old.emu.state.grid.cols ≡ other.now.emu.state.grid.cols }
        ensures { self.new ≡ other.now }
    {
        self.emu.copy_from(&other.emu);
        self.bells = other.bells;
    }

    /// Runs a text on the screen up to its first side effect, or to its end, and counts its BEL. Returns the
    /// number of bytes that were run; `effect` then is their side effect, if they have one.
    pub(crate) fn write(&mut self, b: &[u8], effect: &mut SideEffect) -> usize
        ensures within { result ≤ length b.now }
        ensures moves { 0 < length b.now → 0 < result }
        ensures terminal { self.new ≡ written_on (take result b.now) self.old }
        ensures effect { outs_of_option effect.new ≡ outs_of_run self.old.emu (take result b.now) }
    {
        let count = self.emu.write_until(b, effect);
        if let Some(Out::Bell) = effect.get() {
            self.bells = self.bells.saturating_add(1);
        }
        count
    }

    /// Resizes the screen onto this grid. Returns the old grid.
    pub(crate) fn resize(&mut self, grid: Grid) -> Grid
        ensures terminal { self.new ≡ altered_by (resize grid.rows grid.cols) self.old }
        ensures old { result ≡ self.old.emu.state.grid }
    {
        self.emu.resize(grid)
    }

    /// Sets the screen's user's table.
    pub(crate) fn set_user(&mut self, words: &[u16; 256])
        ensures { self.new ≡ altered_by (user_map words.now) self.old }
    {
        self.emu.set_user(words);
    }

    /// Sets the screen's palette.
    pub(crate) fn set_palette(&mut self, colours: Palette)
        ensures { self.new ≡ altered_by (palette colours) self.old }
    {
        *self.emu.palette_mut() = colours;
    }
}
