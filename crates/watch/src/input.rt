//! The input: a session, and a journal after it or none.
use crate::ending::Failure;
use crate::free::free_text;
use crate::task::Task;
use crate::watched::Watched;
use crate::watcher::watch_text;
use session_run::play;
use session_text::{SError, Session, read};
use std::alloc::Global;
use vt_base::{Bytes, NoMemory};
use vt_journal::{JError, Journal, parse, print, version_of};

/// The text for the input.
pub(crate) fn text_for(alloc: Global, task: Task, input: &[u8]) -> Result<Bytes, Failure> {
    let (text, after) = cut(input);
    let session = session_of(alloc, text)?;
    match watched(alloc, task, &session, after)? {
        Watched::Text(text) => Ok(text),
        Watched::Illegal { index, why } => Err(Failure::Illegal { index, why }),
    }
}

// The result for the session and the text after it.
fn watched(alloc: Global, task: Task, session: &Session, after: &[u8]) -> Result<Watched, Failure> {
    if task.is_free {
        let journal = parsed(alloc, after)?;
        return Ok(free_text(alloc, task.form, session, &journal)?);
    }
    let journal = if after.is_empty() {
        played(alloc, session)?
    } else {
        parsed(alloc, after)?
    };
    Ok(watch_text(alloc, task.form, session, &journal)?)
}

// The input, cut before the first of its lines that is the first line of a journal.
fn cut(input: &[u8]) -> (&[u8], &[u8]) {
    for at in 0..input.len() {
        let (text, after) = input.split_at(at);
        if begins_line(text) && version_of(after).is_some() {
            return (text, after);
        }
    }
    (input, &[])
}

fn begins_line(text: &[u8]) -> bool {
    text.is_empty() || text.ends_with(b"\n".as_slice())
}

fn session_of(alloc: Global, text: &[u8]) -> Result<Session, Failure> {
    match read(alloc, text) {
        Ok(session) => Ok(session),
        Err(SError::Fault(fault)) => Err(Failure::Refused {
            code: fault.kind,
            a: fault.part,
            b: fault.item,
        }),
        Err(SError::NoMemory) => Err(Failure::NoMemory),
    }
}

fn parsed(alloc: Global, text: &[u8]) -> Result<Journal, Failure> {
    match parse(alloc, text) {
        Ok(journal) => Ok(journal),
        Err(JError::Fault(fault)) => Err(Failure::Refused {
            code: fault.kind,
            a: fault.line,
            b: if fault.line == 0 { 0 } else { 1 },
        }),
        Err(JError::NoMemory) => Err(Failure::NoMemory),
    }
}

// The journal of the session's play.
fn played(alloc: Global, session: &Session) -> Result<Journal, Failure> {
    let text = journal_text(alloc, session)?;
    parsed(alloc, text.as_slice())
}

fn journal_text(alloc: Global, session: &Session) -> Result<Bytes, NoMemory> {
    let run = play(alloc, session)?;
    let mut text = Bytes::new(alloc);
    print(alloc, run.log.entries(), 2, &run.tail(), &mut text)?;
    Ok(text)
}
