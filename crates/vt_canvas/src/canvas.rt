//! The screen that text draws on, without the reading of the text.
ghost use Rattle.std.specs.Prelude.{◌≡◌, ◌<◌, ◌≤◌, ◌+◌, ◌++◌, false, length};
ghost use Rattle.vt_cells.specs.Width.{is_half};
ghost use Rattle.vt_canvas.specs.Effect.{effect};
ghost use Rattle.std.specs.Borrow.{Lends, sem};
ghost use Rattle.vt_cells.specs.contracts.palette.Palette.{the_row as palette_row};
ghost use Rattle.vt_canvas.specs.contracts.canvas.Canvas.{the_row};
ghost use Rattle.vt_canvas.specs.Change.{after_change, palette};
ghost use Rattle.vt_canvas.specs.Screen.{IsWhole, blank_of, mode_of, start_screen, with_state};

mod controls;
mod erases;
mod escapes;
mod falling;
mod moves;
mod prefixes;
mod print;
mod reports;
mod resizes;
mod same;
mod saves;
mod sequences;
mod settings;

use crate::side_effect::SideEffect;
use crate::{BLANK, ScreenState};
use std::marker::Model;
use vt_cells::{Cell, Palette, attr_byte, erase_byte};
use vt_grid::Grid;
use vt_units::{Mode, Unit};

/// A screen, and the effect of each unit on it.
#[derive(Drop)]
pub struct Canvas {
    grid: Grid,
    state: ScreenState,
    // The attribute byte of characters that the pen prints.
    attr: u8,
    // The attribute byte of cells that are erased.
    erase: u8,
}

impl Model for Canvas {
    ghost use Rattle.vt_canvas.specs.Kept.{IsKept};
    ghost use Rattle.vt_canvas.specs.Screen.{Screen};

    ghost Value = { Screen };

    ghost view = { λ c. record { grid = c.grid; state = c.state } };

    ghost invariant = { λ c. IsKept (record { grid = c.grid; state = c.state }) c.attr c.erase };
}

impl Canvas {
    /// The start screen of this grid's size, whatever the grid has.
    #[tactic(auto, unfolding(crate::specs::Screen::printed_byte, crate::specs::Screen::erased_byte))]
    pub fn new(grid: Grid) -> Canvas
        ensures { result ≡ start_screen grid.rows grid.cols }
    {
        let mut grid = grid;
        grid.fill(BLANK);
        let state = ScreenState::start(grid.size().rows);
        Canvas {
            grid,
            state,
            attr: BLANK.attr,
            erase: BLANK.attr,
        }
    }

    /// The screen of these cells and this state.
    #[tactic(auto, unfolding(crate::specs::Screen::printed_byte, crate::specs::Screen::erased_byte))]
    pub fn of(grid: Grid, state: ScreenState) -> Canvas
        requires { IsWhole (record { grid = grid; state = state }) }
        ensures { result ≡ record { grid = grid; state = state } }
    {
        let attr = attr_byte(&state.pen.attr, &state.pen.look);
        let erase = erase_byte(&state.pen.attr);
        Canvas {
            grid,
            state,
            attr,
            erase,
        }
    }

    /// The cells.
    pub fn grid(&self) -> &Grid
        ensures cells { result.now ≡ self.now.grid }
        ensures whole { IsWhole self.now }
    {
        &self.grid
    }

    /// The state, without the cells.
    pub fn state(&self) -> &ScreenState
        ensures state { result.now ≡ self.now.state }
        ensures whole { IsWhole self.now }
    {
        &self.state
    }

    /// How the next byte is read.
    pub fn mode(&self) -> Mode
        ensures { result ≡ mode_of self.now }
    {
        Mode {
            utf8: self.state.utf8,
            display: self.state.pen.display,
        }
    }

    /// Gives each byte the user's character.
    pub fn set_user(&mut self, words: &[u16; 256])
        ensures { self.new ≡ with_state self.old (record self.old.state { map = words.now }) }
    {
        self.state.map.set_user(words);
    }

    /// The palette.
    pub fn palette_mut(&mut self) -> &mut Palette
        ensures* lends { sem 𝓛
            (Lends the_row palette_row self.entry result (λ w. after_change (palette w) self.old)) }
        ensures value { result.now ≡ self.old.state.palette }
    {
        &mut self.state.palette
    }

    /// Applies the unit. `said` is then its side effect.
    pub fn dispatch(&mut self, unit: &Unit, said: &mut SideEffect)
        ensures { effect unit.now self.old ≡ record { screen = self.new; said = said.new } }
    {
        said.clear();
        match unit {
            Unit::Char(code) => self.print(*code),
            Unit::Byte(b) => self.print_cells(1, self.shown(*b)),
            Unit::Control(code) => self.control(*code, said),
            Unit::Esc { mid, last } => self.escape(*mid, *last, said),
            Unit::Csi {
                private,
                params,
                last,
            } => self.dispatch_sequence(*private, params.as_slice(), *last, said),
            Unit::Colour { n, rgb } => self.set_colour(*n, *rgb),
            Unit::ColourReset => self.reset_palette(),
            Unit::Ignored => {}
        }
    }

    // A blank cell.
    fn blank(&self) -> Cell
        ensures blank { result ≡ blank_of self.now }
        ensures one { is_half result ≡ false }
    {
        Cell {
            code: 0x20,
            attr: self.erase,
        }
    }
}
