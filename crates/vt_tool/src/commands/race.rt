//! `race`: the journal of a session whose callers have a thread each, and the machine after it.
ghost use Rattle.std.specs.Prelude.{◌⊎◌, IfOk};
ghost use Rattle.vt_tool.specs.Commands.Race.{GivesRaced, IsRaced};
ghost use Rattle.vt_tool.specs.Commands.Session.{GivesSessionFault};

use crate::answer::{Answer, refused};
use crate::commands::session::answer_run;
use session_run::{final_text_map, race_tables};
use session_text::{Session, read};
use std::alloc::Global;
use std::sync::Wait;
use std::thread::Threads;
use table_fields::TableError;
use vt_base::NoMemory;
use vt_io::Gate;

/// The journal of the run that the session's callers made, and the machine after it; or the session's
/// first fault.
pub(crate) fn answer<G: Gate + Sync, R: Threads + Wait + Sync>(
    rt: &R,
    alloc: Global,
    input: &[u8],
    gate: &G,
) -> Result<Answer, NoMemory>
    ensures { IfOk result (λ answer. GivesRaced input.now answer ⊎ GivesSessionFault input.now answer) }
{
    match read(alloc, input) {
        Ok(session) => answer_raced(rt, alloc, &session, gate),
        Err(TableError::Fault(fault)) => Ok(refused(alloc, fault)),
        Err(TableError::NoMemory) => Err(NoMemory),
    }
}

fn answer_raced<G: Gate + Sync, R: Threads + Wait + Sync>(
    rt: &R,
    alloc: Global,
    session: &Session,
    gate: &G,
) -> Result<Answer, NoMemory>
    ensures { IfOk result (IsRaced session.now) }
{
    let run = race_tables(rt, alloc, session, gate)?;
    let last = final_text_map(rt, alloc, &run)?;
    answer_run(alloc, &run, last.as_slice())
}
