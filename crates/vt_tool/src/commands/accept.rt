//! `accept`: whether the text after a session and its journal is the journal's certificate.
ghost use Rattle.std.specs.Prelude.{◌≡◌, ◌∷◌, [], codes, decimal, IfOk};
ghost use Rattle.vt_journal.specs.Journal.{line_text};
ghost use Rattle.vt_tool.specs.Commands.Accept.{IsAccepted, IsAnswered};
ghost use Rattle.vt_tool.specs.Outcome.{fine_text};

use crate::answer::Answer;
use crate::commands::lines::add_number;
use session_text::Session;
use std::alloc::Global;
use vt_base::{Bytes, NoMemory};
use vt_explain::{CertError, HopWhy, Judged, accept, read_cert};
use vt_journal::Journal;

/// The fault code of a certificate.
const BAD_CERT: u16 = 45;

/// The reason of status 8 if the certificate is not accepted.
const BAD_ITEM: u8 = 6;

/// Whether the text is the journal's certificate, or the text's first fault.
pub(crate) fn answer(
    alloc: Global,
    session: &Session,
    journal: &Journal,
    cert: &[u8],
) -> Result<Answer, NoMemory>
    ensures { IfOk result (IsAccepted cert.now session.now journal.now) }
{
    if cert.is_empty() {
        return Ok(Answer::refused(alloc, BAD_CERT, 0, 0));
    }
    match read_cert(alloc, cert) {
        Ok(items) => answer_items(alloc, session, journal, items.as_slice()),
        Err(CertError::Fault { line }) => Ok(Answer::refused(alloc, BAD_CERT, line, 1)),
        Err(CertError::NoMemory) => Err(NoMemory),
    }
}

// Whether the items are the journal's certificate.
fn answer_items(
    alloc: Global,
    session: &Session,
    journal: &Journal,
    items: &[HopWhy],
) -> Result<Answer, NoMemory>
    ensures { IfOk result (IsAnswered items.now session.now journal.now) }
{
    match accept(alloc, session, journal, items)? {
        Judged::Yes => answer_yes(alloc, items.len()),
        Judged::No { index } => Ok(Answer::illegal(alloc, index, BAD_ITEM)),
        Judged::Illegal { index, why } => Ok(Answer::illegal(alloc, index, why)),
    }
}

fn answer_yes(alloc: Global, items: usize) -> Result<Answer, NoMemory>
    ensures { IfOk result (λ answer. answer
        ≡ fine_text (line_text (codes "accepted" ∷ decimal items ∷ []))) }
{
    let mut text = Bytes::new(alloc);
    add_number(alloc, &mut text, b"accepted", items as u64)?;
    Ok(Answer::fine(text))
}
