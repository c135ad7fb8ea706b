//! A process's calls on the hub: after a call that waits comes the one that asks how the wait ended.
ghost use Rattle.std.specs.Prelude.{◌≡◌, false};
ghost use Rattle.vt_hub.specs.Ready.{IsReady};
ghost use Rattle.vt_world.specs.Refusals.{ends_wait};

use std::sync::Wait;
use vt_base::NoMemory;
use vt_events::Event;
use vt_hub::{Answer, Opening, Pass, Seat};
use vt_world::Spare;

/// Makes the call. If its answer is "wait", returns the answer of the next call, which has the end of the wait.
pub(crate) fn call<J: Opening, R: Wait>(
    seat: &Seat<J, R>,
    pass: &mut Pass<J>,
    event: Event,
) -> Result<Answer, NoMemory>
    requires ready { IsReady seat.now false pass.old }
    requires call { ends_wait event ≡ false }
    ensures ready { IsReady seat.now false pass.new }
    ensures number { pass.new.number ≡ pass.old.number }
{
    let mut answer = seat.ask(pass, event)?;
    if answer.is_wait() {
        answer = seat.ask(pass, Event::WaitEnd)?;
    }
    Ok(answer)
}

/// The last call of a process, for which no memory is needed.
pub(crate) fn exit<J: Opening, R: Wait>(seat: &Seat<J, R>, pass: &mut Pass<J>)
    requires ready { IsReady seat.now false pass.old }
    ensures hub { pass.new.hub ≡ seat.now }
    ensures number { pass.new.number ≡ pass.old.number }
{
    let none = Spare::none(seat.alloc);
    seat.hub.call(seat.rt, pass, Event::Exit, none);
}
