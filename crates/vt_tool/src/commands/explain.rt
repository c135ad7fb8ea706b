//! `explain`: the certificate of the journal after a session.
ghost use Rattle.std.specs.Prelude.{IfOk};
ghost use Rattle.vt_tool.specs.Commands.Explain.{IsExplained};

use crate::answer::Answer;
use session_text::Session;
use std::alloc::Global;
use vt_base::NoMemory;
use vt_explain::{Explained, explain, print_cert};
use vt_journal::Journal;

/// The reasons for the switches in the journal.
pub(crate) fn answer(
    alloc: Global,
    session: &Session,
    journal: &Journal,
) -> Result<Answer, NoMemory>
    ensures { IfOk result (IsExplained session.now journal.now) }
{
    match explain(alloc, session, journal)? {
        Explained::Cert(items) => Ok(Answer::fine(print_cert(alloc, items.as_slice())?)),
        Explained::Illegal { index, why } => Ok(Answer::illegal(alloc, index, why)),
    }
}
