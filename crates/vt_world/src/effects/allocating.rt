//! Consoles are allocated, and freed.
ghost use Rattle.std.specs.Prelude.{◌≡◌, ◌≤◌, [], false, length, if◌then◌else◌};
ghost use Rattle.vt_switch.specs.Calls.{is_held, names};
ghost use Rattle.vt_switch.specs.Display.{is_allocated};
ghost use Rattle.vt_world.specs.Deeds.{apply_deeds};
ghost use Rattle.vt_world.specs.Lent.{grid_after_allocation};
ghost use Rattle.vt_world.specs.Rows.{with_allocation, disallocate_deeds, free_deeds};
ghost use Rattle.vt_world.specs.Spare.{HasSize, extent};
ghost use Rattle.vt_world.specs.Refusals.{is_in_use};

use crate::World;
use vt_base::{CONSOLES, ConsoleNo};
use vt_grid::Grid;

impl World {
    /// Allocates the console, if it isn't allocated, with a start screen on this grid.
    pub(crate) fn allocate(&mut self, c: ConsoleNo, grid: &mut Option<Grid>)
        requires { is_allocated self.old.display c ≡ false
            → HasSize (extent self.old.rows self.old.cols) grid.old }
        ensures world { self.new ≡ apply_deeds self.old (with_allocation c []) }
        ensures grid { grid.new ≡ grid_after_allocation (is_allocated self.old.display c) grid.old }
    {
        if self.switch.allocated(c) {
            return;
        }
        let Some(grid) = grid.take() else {
            unreachable!()
        };
        self.terminals.begin(c, grid);
        self.switch.allocate(c);
    }

    /// Frees every console that isn't in use.
    pub(crate) fn free_unused(&mut self)
        ensures { self.new ≡ apply_deeds self.old (disallocate_deeds self.old 0) }
    {
        for n in 1..CONSOLES as u16 + 1 {
            self.free_if_unused(ConsoleNo::numbered(n));
        }
    }

    fn free_if_unused(&mut self, c: ConsoleNo)
        ensures { self.new ≡ (if is_in_use self.old c then self.old
            else apply_deeds self.old (free_deeds c)) }
    {
        if !self.in_use(c) {
            self.free(c);
        }
    }

    /// Frees console `c`, with its screen, its queue and its key state.
    pub(crate) fn free(&mut self, c: ConsoleNo)
        requires { is_held self.old.display c ≡ false }
        ensures { self.new ≡ apply_deeds self.old (free_deeds c) }
    {
        self.switch.free(c);
        self.terminals.end(c);
        self.inputs.clear(c);
    }

    /// Whether the console can't be freed. It looks at every descriptor.
    pub(crate) fn in_use(&self, c: ConsoleNo) -> bool
        ensures used { result ≡ is_in_use self.now c }
        ensures held { result ≡ false → is_held self.now.display c ≡ false }
    {
        c.get() == 1 || self.held(c) || self.procs.opened(c)
    }

    // Whether the console is in front or waits for the display, or a process handles its switches.
    fn held(&self, c: ConsoleNo) -> bool
        ensures { result ≡ is_held self.now.display c }
    {
        c == self.switch.front() || self.pending(c) || self.switch.owner(c).is_some()
    }

    // Whether the console waits for the display.
    fn pending(&self, c: ConsoleNo) -> bool
        ensures { result ≡ names c self.now.display.pending }
    {
        match &self.switch.pending() {
            Some(n) => *n == c,
            None => false,
        }
    }
}
