//! `check`: the verdict on the journal after a session.
ghost use Rattle.std.specs.Prelude.{◌≡◌, IfOk};
ghost use Rattle.vt_tool.specs.Commands.Check.{IsJudged, legal_text};
ghost use Rattle.vt_tool.specs.Commands.Judged.{judged_text};
ghost use Rattle.vt_tool.specs.Outcome.{fine_text};

use crate::answer::Answer;
use crate::commands::lines::add_number;
use session_order::session_laws;
use session_text::Session;
use std::alloc::Global;
use vt_base::{Bytes, NoMemory};
use vt_check::{Verdict, check};
use vt_journal::Journal;

/// The verdict on the journal.
pub(crate) fn answer(
    alloc: Global,
    session: &Session,
    journal: &Journal,
) -> Result<Answer, NoMemory>
    ensures { IfOk result (IsJudged session.now journal.now) }
{
    session_laws(session);
    let verdict = check(alloc, session, journal)?;
    answer_verdict(alloc, verdict, journal.entries.as_slice().len())
}

// The answer to the verdict on this many entries.
fn answer_verdict(alloc: Global, verdict: Verdict, entries: usize) -> Result<Answer, NoMemory>
    ensures { IfOk result (λ answer. answer ≡ judged_text (legal_text entries) verdict) }
{
    match verdict {
        Verdict::Legal => answer_legal(alloc, entries),
        Verdict::Illegal { index, why } => Ok(Answer::illegal(alloc, index, why)),
    }
}

fn answer_legal(alloc: Global, entries: usize) -> Result<Answer, NoMemory>
    ensures { IfOk result (λ answer. answer ≡ fine_text (legal_text entries)) }
{
    let mut text = Bytes::new(alloc);
    add_number(alloc, &mut text, b"legal", entries as u64)?;
    Ok(Answer::fine(text))
}
