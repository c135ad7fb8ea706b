ghost use Rattle.std.specs.Prelude.{◌≡◌, Some, IfOk, OnOk};
ghost use Rattle.session_order.specs.Ends.{Setup};
ghost use Rattle.session_order.specs.Serial.{Played, call_now, turn};
ghost use Rattle.session_run.specs.Playing.{IsAt};
ghost use Rattle.session_text.specs.Programs.{program_of};

use crate::caller::Caller;
use crate::callers::Callers;
use crate::player::Player;
use sig_hooks::Handler;
use std::alloc::Global;
use vt_base::{CallerNo, NoMemory};
use vt_events::Event;

impl Player {
    /// p's turn: it makes its next call, if it has one, unless the play has stopped.
    pub(crate) fn turn<H: Handler>(
        &mut self,
        alloc: Global,
        callers: &Callers<'_, H>,
        p: CallerNo,
    ) -> Result<(), NoMemory>
        ensures { OnOk result ((o : Setup) (t : Played) → o.programs ≡ callers.now
            → IsAt o t self.old → IsAt o (turn o p t) self.new) }
    {
        if self.stop.is_some() {
            return Ok(());
        }
        let Some(caller) = callers.get(p) else {
            return Ok(());
        };
        match self.next(alloc, &caller, p)? {
            Some(event) => {
                self.call(alloc, caller.program(), p, event)?;
                Ok(())
            }
            None => Ok(()),
        }
    }

    // The call that p can make: none while it waits, and none if its program is over.
    fn next<H: Handler>(
        &self,
        alloc: Global,
        caller: &Caller<'_, H>,
        p: CallerNo,
    ) -> Result<Option<Event>, NoMemory>
        ensures { IfOk result (λ e. (o : Setup) (t : Played)
            → program_of o.programs p ≡ Some caller.now
            → IsAt o t self.now → e ≡ call_now o t.history p) }
    {
        if self.world.waiting(p) {
            return Ok(None);
        }
        caller.next_call(alloc, self.standing.walk(p))
    }
}
