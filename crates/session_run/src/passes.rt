//! The passes of a race: made, lent to the workers, and joined.
ghost use Rattle.std.specs.Prelude.{◌≡◌, ℕ, ◌<◌, length, vec_len, IfOk, OnOk, slice_index_or};
ghost use Rattle.std.specs.Thread.{IsSync};
ghost use Rattle.session_run.specs.Callers.{callers_in};
ghost use Rattle.session_run.specs.Racing.{AreAllHome, AreFresh, IsAfterWorker, IsFresh, IsSplit};
ghost use Rattle.session_text.specs.Programs.{program_of};

use crate::callers::Callers;
use crate::pace::Pace;
use crate::worker::work;
use sig_hooks::Handler;
use std::alloc::Global;
use std::sync::Wait;
use std::thread;
use std::thread::Threads;
use vt_base::NoMemory;
use vt_hub::{Hub, Opening, Pass, Seat, Steward};
use vt_io::Gate;

/// A pass for each caller.
pub(crate) fn split_all<J: Opening, H: Handler>(
    alloc: Global,
    hub: &Hub<J>,
    steward: &mut Steward<J>,
    callers: &Callers<'_, H>,
) -> Result<Vec<Pass<J>>, NoMemory>
    requires { IsSplit hub.now (callers_in callers.now) 0 steward.old }
    ensures len { IfOk result (λ passes. vec_len passes ≡ length (callers_in callers.now)) }
    ensures passes { IfOk result (λ passes. AreFresh hub.now (callers_in callers.now) passes.items) }
    ensures steward { OnOk result (IsSplit hub.now (callers_in callers.now)
        (length (callers_in callers.now)) steward.new) }
{
    let numbers = callers.numbers();
    let mut passes = Vec::new(alloc);
    for p in numbers {
        passes.push(hub.split(steward, *p))?;
    }
    Ok(passes)
}

/// Runs the worker of each pass in a thread of its own: their results, in order.
pub(crate) fn work_all<
    J: Opening + Send + Sync,
    H: Handler + Send + Sync,
    G: Gate + Sync,
    R: Threads + Wait + Sync,
>(
    seat: &Seat<J, R>,
    passes: Vec<Pass<J>>,
    callers: &Callers<'_, H>,
    gate: &G,
) -> Result<Vec<Result<Pass<J>, NoMemory>>, NoMemory>
    requires passes { AreFresh seat.now (callers_in callers.now) passes.items }
    requires len { vec_len passes ≡ length (callers_in callers.now) }
    ensures len { IfOk result (λ ran. vec_len ran ≡ length (callers_in callers.now)) }
    ensures ran { IfOk result (λ ran. (i : ℕ) (d : _) → i < length (callers_in callers.now)
        → IfOk (slice_index_or ran.items i d)
        (λ q. IsAfterWorker callers.now seat.now (slice_index_or (callers_in callers.now) i 0) q)) }
{
    // Each of these callers has a program, so each worker begins and ends at this pace.
    let pace = Pace::of(passes.len());
    let pace = &pace;
    let run = move |pass: Pass<J>| -> Result<Pass<J>, NoMemory>
        requires { IsSync R.row × IsSync G.row × IsFresh seat.now pass.number pass }
        ensures { IfOk result (λ q. IsAfterWorker callers.entry.now seat.entry.now pass.number q) }
    { work_one(seat, pass, callers, gate, pace) };
    Ok(thread::map_vec(seat.rt, passes, &run)?)
}

// Runs the worker of this pass. A caller that has no program makes no call.
fn work_one<J: Opening, H: Handler, G: Gate, R: Wait>(
    seat: &Seat<J, R>,
    pass: Pass<J>,
    callers: &Callers<'_, H>,
    gate: &G,
    pace: &Pace,
) -> Result<Pass<J>, NoMemory>
    requires { IsFresh seat.now pass.number pass }
    ensures { IfOk result (λ q. IsAfterWorker callers.now seat.now pass.number q) }
{
    let Some(caller) = callers.get(pass.number()) else {
        return Ok(pass);
    };
    let mut stride = pace.begin();
    let ran = work(seat, pass, &caller, gate, &mut stride);
    stride.end();
    ran
}

/// Joins every pass.
pub(crate) fn join_all<J: Opening, H: Handler>(
    hub: &Hub<J>,
    steward: &mut Steward<J>,
    ran: Vec<Result<Pass<J>, NoMemory>>,
    callers: &Callers<'_, H>,
) -> Result<(), NoMemory>
    requires split { IsSplit hub.now (callers_in callers.now) (length (callers_in callers.now)) steward.old }
    requires len { vec_len ran ≡ length (callers_in callers.now) }
    requires ran { (i : ℕ) (d : _) → i < length (callers_in callers.now)
        → IfOk (slice_index_or ran.items i d)
        (λ q. IsAfterWorker callers.now hub.now (slice_index_or (callers_in callers.now) i 0) q) }
    ensures { OnOk result (AreAllHome callers.now hub.now steward.new) }
{
    for outcome in ran {
        let pass = outcome?;
        hub.join(steward, pass);
    }
    Ok(())
}
