ghost use Rattle.std.specs.Prelude.{◌≡◌, ◌≤◌, IfOk, OnErr, length};
ghost use Rattle.vt_events.specs.Charge.{greatest_reply, text_of_reply};
ghost use Rattle.vt_world.specs.Spare.{HasGrid, extent, needed_grid};
ghost use Rattle.vt_world.specs.Step.{HasOutcome, step};

use crate::spare::{grid_from, needed_grid};
use crate::world::World;
use std::alloc::Global;
use vt_base::{Bytes, CallerNo, NoMemory};
use vt_events::{Event, Reply, reply_bytes};
use vt_grid::Grid;

impl World {
    /// Takes a call of the caller and returns the answer: a step whose memory is allocated here. A
    /// grid that it allocates and doesn't use is kept for a later call.
    pub fn call(
        &mut self,
        alloc: Global,
        caller: CallerNo,
        event: &Event,
    ) -> Result<Reply, NoMemory>
        ensures ok { IfOk result (λ reply. HasOutcome (step self.old caller event.now) self.new reply) }
        ensures bytes { IfOk result (λ reply. length (text_of_reply reply) ≤ greatest_reply event.now) }
        ensures err { OnErr result (self.new ≡ self.old) }
    {
        let room = Bytes::with_room(alloc, reply_bytes(event))?;
        let mut grid = self.grid_for(alloc, event)?;
        let reply = self.step_on(caller, event, &mut grid, room);
        self.keep(grid);
        Ok(reply)
    }

    // The grid that the call may need.
    fn grid_for(&mut self, alloc: Global, event: &Event) -> Result<Option<Grid>, NoMemory>
        ensures grid { IfOk result (HasGrid (needed_grid (extent self.old.rows self.old.cols) event.now)) }
        ensures same { self.new ≡ self.old }
    {
        grid_from(alloc, needed_grid(event, self.size), &mut self.kept)
    }

    // Keeps a grid for a later call.
    fn keep(&mut self, grid: Option<Grid>)
        ensures { self.new ≡ self.old }
    {
        if grid.is_some() {
            self.kept = grid;
        }
    }
}
