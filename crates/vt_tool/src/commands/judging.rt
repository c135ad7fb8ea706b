//! The steps that the commands over a session and a journal have in common.
ghost use Rattle.std.specs.Prelude.{◌≡◌, [], IfOk};
ghost use Rattle.vt_tool.specs.Commands.Judging.{GivesAsked, IsFitAsked, IsParted, IsReadAs, MakesOf, column_of};
ghost use Rattle.vt_tool.specs.Outcome.{no_text};

use crate::answer::{Answer, refused};
use crate::commands::cut::{CutInput, CutMark, cut};
use crate::commands::judge_request::JudgeRequest;
use crate::commands::{accept, check, explain, review};
use crate::status::Status;
use session_text::{Session, read};
use std::alloc::Global;
use table_fields::TableError;
use vt_base::NoMemory;
use vt_journal::{JError, JFault, Journal, parse};

/// The answer to the request about the session and the text after it; or the first fault of the
/// session, or else of that text.
pub(crate) fn answer(alloc: Global, asked: JudgeRequest, input: &[u8]) -> Result<Answer, NoMemory>
    requires { IsFitAsked asked }
    ensures { IfOk result (GivesAsked asked input.now) }
{
    let parts = cut(CutMark::Journal, input);
    match read(alloc, parts.text) {
        Ok(session) => answer_read(alloc, asked, &session, parts.after),
        Err(TableError::Fault(fault)) => Ok(refused(alloc, fault)),
        Err(TableError::NoMemory) => Err(NoMemory),
    }
}

// The answer to the request about the text after a session.
fn answer_read(
    alloc: Global,
    asked: JudgeRequest,
    session: &Session,
    after: &[u8],
) -> Result<Answer, NoMemory>
    requires { IsFitAsked asked }
    ensures { IfOk result (IsReadAs asked session.now after.now) }
{
    let parts = parts_for(asked, after);
    match parse(alloc, parts.text) {
        Ok(journal) => make_of(alloc, asked, session, &journal, parts.after),
        Err(JError::Fault(fault)) => Ok(answer_refused(alloc, fault)),
        Err(JError::NoMemory) => Err(NoMemory),
    }
}

// The journal, and the certificate after it if the request is about one.
fn parts_for(asked: JudgeRequest, after: &[u8]) -> CutInput<'_>
    ensures { IsParted asked after.now result.text.now result.after.now }
{
    match asked {
        JudgeRequest::Acceptance => cut(CutMark::Certificate, after),
        _ => CutInput {
            text: after,
            after: &[],
        },
    }
}

// The answer to the request about a journal and the text of a certificate.
fn make_of(
    alloc: Global,
    asked: JudgeRequest,
    session: &Session,
    journal: &Journal,
    cert: &[u8],
) -> Result<Answer, NoMemory>
    requires { IsFitAsked asked }
    ensures { IfOk result (MakesOf asked cert.now session.now journal.now) }
{
    match asked {
        JudgeRequest::Verdict => check::answer(alloc, session, journal),
        JudgeRequest::Review { kinds, console } => review::answer(
            alloc, kinds, console, session, journal,
        ),
        JudgeRequest::Explanation => explain::answer(alloc, session, journal),
        JudgeRequest::Acceptance => accept::answer(alloc, session, journal, cert),
    }
}

/// The answer to a journal that is refused at this fault.
pub(crate) fn answer_refused(alloc: Global, fault: JFault) -> Answer
    ensures { result ≡ no_text (Status.Refused fault.kind fault.line (column_of fault.line)) }
{
    let column = if fault.line == 0 { 0 } else { 1 };
    Answer::refused(alloc, fault.kind, fault.line, column)
}
