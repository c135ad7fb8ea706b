//! The worker of one caller of a race.
ghost use Rattle.std.specs.Prelude.{◌≡◌, IfOk};
ghost use Rattle.session_run.specs.Racing.{IsFresh, Works};

use crate::caller::Caller;
use crate::pace::Stride;
use session_text::Walk;
use sig_hooks::Handler;
use std::sync::Wait;
use vt_base::NoMemory;
use vt_hub::{Answer, Opening, Pass, Seat};
use vt_io::Gate;

/// Makes the calls of the program, one after another, until it is over or the hub has stopped. The
/// gate is asked before each; the hook of a process determines its acts at signals.
pub(crate) fn work<J: Opening, H: Handler, G: Gate, R: Wait>(
    seat: &Seat<J, R>,
    pass: Pass<J>,
    caller: &Caller<'_, H>,
    gate: &G,
    stride: &mut Stride<'_>,
) -> Result<Pass<J>, NoMemory>
    requires { IsFresh seat.now pass.number pass }
    ensures own { IfOk result (λ q. q.hub ≡ seat.now) }
    ensures number { IfOk result (λ q. q.number ≡ pass.number) }
    ensures works { IfOk result (λ q. Works caller.now q) }
{
    let p = pass.number();
    let program = caller.program();
    let mut pass = pass;
    let mut walk = Walk::start();
    let mut seq = 0u32;
    for _ in seat.rt.forever() {
        let Some(event) = caller.next_call(seat.alloc, &walk)? else {
            return Ok(pass);
        };
        gate.before(seat.rt, p, seq);
        seq = seq.saturating_add(1);
        match seat.ask(&mut pass, event)? {
            Answer::Done { at, reply } => {
                stride.made(at, &reply);
                walk.took(program, &reply);
            }
            Answer::Full(_) => return Ok(pass),
        }
    }
    unreachable!()
}
