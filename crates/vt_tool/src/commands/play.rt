//! `play`: the journal of a session's serial play, and the machine after it.
ghost use Rattle.std.specs.Prelude.{◌⊎◌, IfOk};
ghost use Rattle.vt_tool.specs.Commands.Play.{GivesPlayed, IsPlayed};
ghost use Rattle.vt_tool.specs.Commands.Session.{GivesSessionFault};

use crate::answer::{Answer, refused};
use crate::commands::session::answer_run;
use session_run::{final_text, play};
use session_text::{Session, read};
use std::alloc::Global;
use table_fields::TableError;
use vt_base::NoMemory;

/// The journal of the session's serial play, and the machine after it; or the session's first fault.
pub(crate) fn answer(alloc: Global, input: &[u8]) -> Result<Answer, NoMemory>
    ensures { IfOk result (λ answer. GivesPlayed input.now answer ⊎ GivesSessionFault input.now answer) }
{
    match read(alloc, input) {
        Ok(session) => answer_played(alloc, &session),
        Err(TableError::Fault(fault)) => Ok(refused(alloc, fault)),
        Err(TableError::NoMemory) => Err(NoMemory),
    }
}

fn answer_played(alloc: Global, session: &Session) -> Result<Answer, NoMemory>
    ensures { IfOk result (IsPlayed session.now) }
{
    let run = play(alloc, session)?;
    let last = final_text(alloc, &run)?;
    answer_run(alloc, &run, last.as_slice())
}
