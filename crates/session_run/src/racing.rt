//! The race of a session: each caller makes its calls on one machine in a thread of its own.
ghost use Rattle.std.specs.Prelude.{◌≡◌, IfOk};
ghost use Rattle.session_order.specs.Sessions.{start_of};
ghost use Rattle.session_run.specs.Runs.{HasHooks, IsRightRun, MakesHandlers};

use crate::callers::Callers;
use crate::hooks::hooks_by;
use crate::passes::{join_all, split_all, work_all};
use session_order::{session_laws, start_of};
use session_text::Session;
use sig_hooks::{Handler, Hook, HookTable};
use std::alloc::Global;
use std::marker::Brand;
use std::sync::Wait;
use std::thread::Threads;
use vt_base::{NoMemory, Signal};
use vt_hub::{Hub, Opening, Run, Seat};
use vt_io::Gate;

/// Races the session: one worker for each caller, in a thread of its own, on one shared machine. There is
/// a hook for each process, with that process's table. Each worker asks the gate before each call. If no
/// thread can be made, the workers run one after another, and the call may then not return.
pub fn race<H: Handler + Send + Sync, G: Gate + Sync, R: Threads + Wait + Sync>(
    rt: &R,
    alloc: Global,
    s: &Session,
    hooks: Vec<Hook<H>>,
    gate: &G,
) -> Result<Run, NoMemory>
    requires hooks { HasHooks s.now.programs hooks.items }
    ensures { IfOk result (IsRightRun s.now) }
{
    race_in::<Brand, H, G, R>(rt, alloc, s, hooks, gate)
}

/// Races the session with hooks that read the tables of its processes.
pub fn race_tables<G: Gate + Sync, R: Threads + Wait + Sync>(
    rt: &R,
    alloc: Global,
    s: &Session,
    gate: &G,
) -> Result<Run, NoMemory>
    ensures { IfOk result (IsRightRun s.now) }
{
    race_by(
        rt,
        alloc,
        s,
        &|table: HookTable| move |s: Signal| table.act(s),
        gate,
    )
}

// Races it with the handlers that are made of the tables of its processes.
fn race_by<
    H: Handler + Send + Sync,
    M: Fn(HookTable) -> H,
    G: Gate + Sync,
    R: Threads + Wait + Sync,
>(rt: &R, alloc: Global, s: &Session, make: &M, gate: &G) -> Result<Run, NoMemory>
    requires { MakesHandlers (λ t. M.pre make.now t) (λ t h. M.post make.now t h) (λ h t. H.answers h t) }
    ensures { IfOk result (IsRightRun s.now) }
{
    let hooks = hooks_by(alloc, s.programs(), make)?;
    race(rt, alloc, s, hooks, gate)
}

// Races it on a hub that begins with the session's machine.
fn race_in<
    J: Opening + Send + Sync,
    H: Handler + Send + Sync,
    G: Gate + Sync,
    R: Threads + Wait + Sync,
>(rt: &R, alloc: Global, s: &Session, hooks: Vec<Hook<H>>, gate: &G) -> Result<Run, NoMemory>
    requires start { J.start ≡ start_of s.now }
    requires limits { J.limits ≡ s.now.limits }
    requires hooks { HasHooks s.now.programs hooks.items }
    ensures { IfOk result (IsRightRun s.now) }
{
    session_laws(s);
    let callers = Callers::of(alloc, s, hooks)?;
    let world = start_of(alloc, s)?;
    let (hub, mut steward) = Hub::<J>::open(alloc, world, s.limits())?;
    let passes = split_all(alloc, &hub, &mut steward, &callers)?;
    let seat = Seat {
        rt,
        alloc,
        hub: &hub,
    };
    let ran = work_all(&seat, passes, &callers, gate)?;
    join_all(&hub, &mut steward, ran, &callers)?;
    Ok(hub.close(steward))
}
