//! Journals read from their texts.
ghost use Rattle.std.specs.Prelude.{◌≡◌, ◌≢◌, ℕ, ◌+◌, ◌≤◌, List, [], ◌++◌, Result, Ok, Err, IfOk, IfSome, IfNone, length, vec_len};
ghost use Rattle.vt_journal.specs.Callers.{IsVersion};
ghost use Rattle.vt_journal.specs.Journal.{first_words, line_text};
ghost use Rattle.vt_journal.specs.Lines.{NextIs};
ghost use Rattle.vt_journal.specs.Says.{JournalSays, Reads};
ghost use Rattle.vt_journal.specs.declared.j_error.JError.TheVariants as errors;
ghost use Rattle.vt_journal.specs.declared.j_fault.JFault.{JFault};
ghost use Rattle.vt_journal.specs.declared.journal.Journal.{Journal};

use crate::cut::cut_line;
use crate::entry_lines::read_entry;
use crate::fault_code::{BAD_LINE, MORE, NO_FIRST, NO_LAST, TOO_MANY};
use crate::first::read_first;
use crate::first_line::FirstLine;
use crate::j_error::refused;
use crate::tail_lines::read_tail;
use crate::{Entries, JError, Journal, Tail};
use std::alloc::Global;
use vt_base::NoMemory;
use vt_events::Entry;

/// The most entries of a journal.
const MOST_ENTRIES: u32 = 1_000_000;

/// The journal of the text, in either version, or the text's first fault. A journal has one spelling in
/// each version.
#[tactic(auto, using(crate::proofs::Saying::one_journal))]
pub fn parse(alloc: Global, text: &[u8]) -> Result<Journal, JError>
    ensures says { Reads result (JournalSays text.now) }
    ensures one { (said : Result Journal JFault) → JournalSays text.now said
        → Reads result (λ s. s ≡ said) }
{
    read_journal(alloc, text)
}

fn read_journal(alloc: Global, text: &[u8]) -> Result<Journal, JError>
    ensures { Reads result (JournalSays text.now) }
{
    match read_first(text) {
        Some(first) => read_lines(alloc, first.version, first.behind),
        None => Err(refused(NO_FIRST, 0)),
    }
}

// The lines of entries after the first line, and the last line.
fn read_lines(alloc: Global, version: u8, text: &[u8]) -> Result<Journal, JError>
    requires { IsVersion version }
    ensures { (whole : List ℕ) → whole ≡ line_text (first_words version) ++ text.now
        → Reads result (JournalSays whole) }
{
    let mut entries = Vec::new(alloc);
    let mut rest = text;
    for read in 0..MOST_ENTRIES + 1 {
        if rest.is_empty() {
            return Err(refused(NO_LAST, read + 1));
        }
        match read_line(alloc, version, rest)? {
            FirstLine::Entry(entry, behind) => {
                entries.push(entry)?;
                rest = behind;
            }
            FirstLine::Tail(end, behind) => return journal(version, entries, end, behind),
            FirstLine::Other => return Err(refused(BAD_LINE, read + 2)),
        }
    }
    Err(refused(TOO_MANY, MOST_ENTRIES + 2))
}

// The journal of these, if the text ends with its last line.
fn journal(version: u8, entries: Vec<Entry>, end: Tail, behind: &[u8]) -> Result<Journal, JError>
    requires { vec_len entries ≤ MOST_ENTRIES }
    ensures whole { behind.now ≡ []
        → result ≡ Ok (record { version = version; entries = entries.items; tail = end }) }
    ensures more { behind.now ≢ []
        → result ≡ Err (errors.Fault (record { kind = MORE; line = length entries.items + 2 })) }
{
    if !behind.is_empty() {
        return Err(refused(MORE, entries.len() as u32 + 2));
    }
    Ok(Journal {
        version,
        entries: Entries::new(entries),
        tail: end,
    })
}

// The first line of the text.
fn read_line(alloc: Global, version: u8, text: &[u8]) -> Result<FirstLine<'_>, NoMemory>
    ensures { IfOk result (NextIs version text.now) }
{
    let Some(cut) = cut_line(text) else {
        return Ok(FirstLine::Other);
    };
    if let Some(entry) = read_entry(alloc, cut.line, version)? {
        return Ok(FirstLine::Entry(entry, cut.behind));
    }
    match read_tail(cut.line) {
        Some(end) => Ok(FirstLine::Tail(end, cut.behind)),
        None => Ok(FirstLine::Other),
    }
}
