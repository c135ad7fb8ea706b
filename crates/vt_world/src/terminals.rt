ghost use Rattle.std.specs.Prelude.{◌≡◌, ◌≤◌, ◌<◌, Some, None, IfOk, length, take, is_some, option_copied, if◌then◌else◌};
ghost use Rattle.vt_base.specs.ConsoleSet.{at_each};
ghost use Rattle.vt_screen.specs.Run.{outs_of_option};
ghost use Rattle.vt_canvas.specs.Change.{palette, resize, user_map};
ghost use Rattle.vt_world.specs.Lent.{grid_after_resize};
ghost use Rattle.vt_world.specs.Terminals.{after_screen_change, new_terminal, said_of, terminal_at, with_start, without_terminal, after_write};

mod same;

use crate::inputs::CONSOLE_PLACES;
use crate::terminal::Terminal;
use std::alloc::Global;
use std::marker::Model;
use vt_base::{ConsoleNo, NoMemory, Size, is_among};
use vt_cells::Palette;
use vt_grid::Grid;
use vt_screen::{BLANK, SideEffect};

/// The terminals of the consoles, by their numbers. Place 0 stays unused.
#[derive(Drop)]
pub(crate) struct Terminals {
    places: Vec<Option<Terminal>>,
}

impl Model for Terminals {
    ghost use Rattle.std.specs.Prelude.{◌≡◌, List, Option, vec_len};
    ghost use Rattle.vt_world.specs.Terminals.{TerminalState};

    ghost Value = { List (Option TerminalState) };

    ghost view = { λ s. s.places.items };

    ghost invariant = { λ s. vec_len s.places ≡ 64 };
}

impl Terminals {
    /// A new terminal for each console of the set.
    pub(crate) fn start(alloc: Global, size: Size, consoles: u64) -> Result<Terminals, NoMemory>
        ensures { IfOk result (λ terminals. terminals
            ≡ at_each consoles (new_terminal size.rows size.cols)) }
    {
        let mut places = Vec::with_capacity(alloc, CONSOLE_PLACES)?;
        for n in 0..CONSOLE_PLACES {
            places.push(first_terminal(alloc, size, is_among(consoles, n))?)?;
        }
        Ok(Terminals { places })
    }

    /// The terminal of the console, if it has one.
    pub(crate) fn at(&self, c: ConsoleNo) -> Option<&Terminal>
        ensures terminal { option_copied result ≡ terminal_at self.now c }
        ensures taken { is_some result ≡ is_some (terminal_at self.now c) }
    {
        self.places[usize::from(c.get())].as_ref()
    }

    /// Gives the console a new terminal on this grid, if it has none.
    pub(crate) fn begin(&mut self, c: ConsoleNo, grid: Grid)
        ensures { self.new ≡ with_start c grid.rows grid.cols self.old }
    {
        let place = &mut self.places[usize::from(c.get())];
        if place.is_none() {
            *place = Some(Terminal::new(grid));
        }
    }

    /// Removes the console's terminal.
    pub(crate) fn end(&mut self, c: ConsoleNo)
        ensures { self.new ≡ without_terminal c self.old }
    {
        self.places[usize::from(c.get())] = None;
    }

    /// Writes to the console up to the text's first side effect, or to its end; to its end too if the
    /// console has no terminal. Returns the number of bytes that were written; `effect` then is their side
    /// effect, if they have one.
    pub(crate) fn write(&mut self, c: ConsoleNo, b: &[u8], effect: &mut SideEffect) -> usize
        ensures within { result ≤ length b.now }
        ensures moves { 0 < length b.now → 0 < result }
        ensures terminals { self.new ≡ after_write c (take result b.now) self.old }
        ensures effect { outs_of_option effect.new ≡ said_of (terminal_at self.old c) (take result b.now) }
    {
        match &mut self.places[usize::from(c.get())] {
            Some(terminal) => terminal.write(b, effect),
            None => {
                *effect = SideEffect::new();
                b.len()
            }
        }
    }

    /// Resizes the console's screen, if it has one, onto this grid. Returns the grid that is no
    /// longer needed.
    pub(crate) fn resize(&mut self, c: ConsoleNo, grid: Grid) -> Grid
        ensures terminals { self.new ≡ after_screen_change c (resize grid.rows grid.cols) self.old }
        ensures old { Some result ≡ grid_after_resize (terminal_at self.old c) (Some grid) }
    {
        match &mut self.places[usize::from(c.get())] {
            Some(terminal) => terminal.resize(grid),
            None => grid,
        }
    }

    /// Sets the user's table of the console's screen, if it has one.
    pub(crate) fn set_user(&mut self, c: ConsoleNo, words: &[u16; 256])
        ensures { self.new ≡ after_screen_change c (user_map words.now) self.old }
    {
        if let Some(terminal) = &mut self.places[usize::from(c.get())] {
            terminal.set_user(words);
        }
    }

    /// Sets the palette of the console's screen, if it has one.
    pub(crate) fn set_palette(&mut self, c: ConsoleNo, colours: Palette)
        ensures { self.new ≡ after_screen_change c (palette colours) self.old }
    {
        if let Some(terminal) = &mut self.places[usize::from(c.get())] {
            terminal.set_palette(colours);
        }
    }
}

// A new terminal, if there is to be one.
fn first_terminal(alloc: Global, size: Size, has_one: bool) -> Result<Option<Terminal>, NoMemory>
    ensures { IfOk result (λ terminal. terminal
        ≡ (if has_one then Some (new_terminal size.rows size.cols) else None)) }
{
    if !has_one {
        return Ok(None);
    }
    Ok(Some(Terminal::new(Grid::blank(alloc, size, BLANK)?)))
}
