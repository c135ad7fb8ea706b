//! The text that the commands over sessions have in common.
ghost use Rattle.std.specs.Prelude.{◌≡◌, IfOk, IsTrue};
ghost use Rattle.vt_journal.specs.Room.{tail_at};
ghost use Rattle.vt_tool.specs.Commands.Session.{run_outcome, status_of};
ghost use Rattle.vt_tool.specs.Status.{is_command_status};

use crate::answer::Answer;
use crate::status::Status;
use session_run::Run;
use std::alloc::Global;
use vt_base::{Bytes, NoMemory};
use vt_journal::{Tail, add, print};

/// The journal of the run, and then this text of the machine after it.
pub(crate) fn answer_run(alloc: Global, run: &Run, last: &[u8]) -> Result<Answer, NoMemory>
    ensures { IfOk result (λ answer. answer
        ≡ run_outcome run.now.log.entries (tail_at run.now.log.entries run.now.stop) last.now) }
{
    let end = run.tail();
    let mut text = Bytes::new(alloc);
    print(alloc, run.log.entries(), 2, &end, &mut text)?;
    add(alloc, &mut text, last)?;
    Ok(Answer::new(status_of(&end), text))
}

/// Fine if all programs are over, and JournalFull if a call found no room.
pub(crate) fn status_of(end: &Tail) -> Status
    ensures status { result ≡ status_of end.now }
    ensures own { IsTrue (is_command_status result) }
{
    match end {
        Tail::End { .. } => Status::Fine,
        Tail::Full(full) => Status::JournalFull(*full),
    }
}
