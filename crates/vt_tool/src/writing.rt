ghost use Rattle.std.specs.Prelude.{IfOk, IsTrue};
ghost use Rattle.vt_tool.specs.Status.{is_command_status};
ghost use Rattle.vt_tool.specs.Writing.{EndsGiving, EndsWriting};

use crate::answer::Answer;
use crate::status::Status;
use vt_base::NoMemory;
use vt_io::{Failed, Sink};

/// Writes the answer's text, and returns the status of the run.
pub(crate) fn write_answer<O: Sink>(out: &mut O, answer: Result<Answer, NoMemory>) -> Status
    ensures ends { EndsGiving (O.stream out.old) (O.stream out.new) answer result }
    ensures own { IfOk answer (λ a. IsTrue (is_command_status a.status)) }
{
    let Ok(answer) = answer else {
        return Status::NoMemory;
    };
    let status = answer.status();
    match write_all(out, answer.text()) {
        Ok(()) => status,
        Err(_) => Status::WriteFault,
    }
}

/// Writes the whole text, in as many pieces as the sink needs.
#[tactic(auto, using(crate::proofs::Streams::written_more))]
pub(crate) fn write_all<K: Sink>(sink: &mut K, text: &[u8]) -> Result<(), Failed>
    ensures { EndsWriting (K.stream sink.old) (K.stream sink.new) text.now result }
{
    let mut at = 0;
    while at < text.len() {
        let count = sink.write(&text[at..])?;
        at += count;
    }
    Ok(())
}
