//! Process 1, which handles the switches of console 1.
ghost use Rattle.std.specs.Prelude.{◌≡◌, false, IfOk};
ghost use Rattle.vt_hub.specs.Ready.{IsReady};

use crate::calling::{call, exit};
use std::sync::Wait;
use vt_base::{NoMemory, SigSet, Signal};
use vt_events::{Event, Reply};
use vt_hub::{Answer, Opening, Pass, Seat};

/// Signal 10 asks the process to let the display go, and signal 12 reports that it came back.
const BY_SIGNALS: Event = Event::SetMode(0, 1, 0, 10, 12, 0);

/// The calls of the process before anybody requests another console.
pub(crate) fn take_switches<J: Opening, R: Wait>(
    seat: &Seat<J, R>,
    pass: &mut Pass<J>,
) -> Result<(), NoMemory>
    requires ready { IsReady seat.now false pass.old }
    ensures ready { IsReady seat.now false pass.new }
    ensures number { pass.new.number ≡ pass.old.number }
{
    call(seat, pass, Event::OpenCon(1))?;
    call(seat, pass, BY_SIGNALS)?;
    Ok(())
}

/// Its thread: it lets the display go after it is asked to, and exits, also if memory is missing.
pub(crate) fn serve<J: Opening, R: Wait>(
    seat: &Seat<J, R>,
    pass: Pass<J>,
) -> Result<Pass<J>, NoMemory>
    requires ready { IsReady seat.now false pass }
    ensures hub { IfOk result (λ after. after.hub ≡ seat.now) }
    ensures number { IfOk result (λ after. after.number ≡ pass.number) }
{
    let mut pass = pass;
    let served = heed_signal(seat, &mut pass);
    exit(seat, &mut pass);
    served?;
    Ok(pass)
}

fn heed_signal<J: Opening, R: Wait>(seat: &Seat<J, R>, pass: &mut Pass<J>) -> Result<(), NoMemory>
    requires ready { IsReady seat.now false pass.old }
    ensures ready { IsReady seat.now false pass.new }
    ensures number { pass.new.number ≡ pass.old.number }
{
    call(seat, pass, Event::WaitSignal)?;
    let answer = call(seat, pass, Event::TakeSignals)?;
    if signals_in(&answer).has(Signal::numbered(10)) {
        call(seat, pass, Event::RelDisp(0, 1))?;
    }
    Ok(())
}

fn signals_in(answer: &Answer) -> SigSet {
    match answer {
        Answer::Done {
            reply: Reply::Sigs(signals),
            ..
        } => *signals,
        _ => SigSet::empty(),
    }
}
