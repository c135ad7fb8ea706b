ghost use Rattle.std.specs.Prelude.{◌≡◌, IfOk};
ghost use Rattle.vt_world.specs.Spare.{Fits};

use crate::opening::Opening;
use crate::shared::Shared;
use std::alloc::Global;
use std::marker::Model;
use turn_lock::Pass as Place;
use vt_base::{CallerNo, NoMemory, Size};
use vt_events::Event;
use vt_grid::Grid;
use vt_world::{Spare, spare_from};

/// The pass of a caller. It may go to another thread. Contracts see what it knows of the history.
#[derive(Drop)]
pub struct Pass<J: Opening> {
    pub(crate) place: Place<Shared<J>>,
    pub(crate) number: CallerNo,
    pub(crate) seq: u32,
    // A grid that a call took and left, for the next one. Contracts don't see it.
    pub(crate) kept: Option<Grid>,
}

impl<J: Opening> Model for Pass<J> {
    ghost use Rattle.vt_hub.specs.Places.{Sits, pass_view};
    ghost use Rattle.vt_hub.specs.Views.{PassView};

    ghost Value = { PassView };

    ghost view = { λ p. pass_view p.number p.place };

    ghost invariant = { λ p. Sits p.number p.seq p.place };
}

impl<J: Opening> Pass<J> {
    /// The number of its caller.
    pub fn number(&self) -> CallerNo
        ensures { result ≡ self.now.number }
    {
        self.number
    }

    /// The memory that the call may need, with the kept grid if it has the size. If the call may leave a grid,
    /// another kept one is freed here, so that a pass has at most one grid.
    pub(crate) fn spare(&mut self, alloc: Global, e: &Event, size: Size) -> Result<Spare, NoMemory>
        ensures fits { IfOk result (λ spare. Fits size.rows size.cols e.now spare) }
        ensures same { self.new ≡ self.old }
    {
        let spare = spare_from(alloc, e, size, &mut self.kept)?;
        if may_leave_grid(e) {
            self.kept = None;
        }
        Ok(spare)
    }
}

// Whether the event is one of those that may leave a grid.
fn may_leave_grid(e: &Event) -> bool {
    matches!(
        e,
        Event::OpenCon(_) | Event::Activate(..) | Event::Resize(..)
    )
}
