//! The text of a free journal: one of programs that have no text.
ghost use Rattle.std.specs.Prelude.{IfOk};
ghost use Rattle.watch.specs.Watch.{IfText, IsWatched, free_verdict_of};
ghost use Rattle.session_order.specs.Sessions.{start_of};
ghost use Rattle.vt_free.specs.Verdicts.{JudgesFree};

use crate::form::Form;
use crate::watched::Watched;
use crate::watcher::history_text;
use session_order::start_of;
use session_text::Session;
use std::alloc::Global;
use vt_base::NoMemory;
use vt_explain::certificate;
use vt_free::{FreeVerdict, judge};
use vt_journal::Journal;

/// The text with the facts of each entry of the journal, if it is a legal history of the session's start with its last
/// line, whatever programs the session has (docs/reference/watch.md).
pub(crate) fn free_text(
    alloc: Global,
    form: Form,
    s: &Session,
    j: &Journal,
) -> Result<Watched, NoMemory>
    ensures judges { IfOk result
        (λ x. JudgesFree (start_of s.now) s.now.limits j.now.entries j.now.tail (free_verdict_of x)) }
    ensures text { IfOk result
        (λ x. IfText x (IsWatched form (start_of s.now) j.now.entries)) }
{
    let entries = j.entries.as_slice();
    match judge(alloc, start_of(alloc, s)?, s.limits(), entries, &j.tail)? {
        FreeVerdict::Legal => {
            let cert = certificate(alloc, start_of(alloc, s)?, entries)?;
            let world = start_of(alloc, s)?;
            let text = history_text(alloc, form, cert.as_slice(), world, entries)?;
            Ok(Watched::Text(text))
        }
        FreeVerdict::Illegal { index, why } => Ok(Watched::Illegal { index, why }),
    }
}
