//! Entries read from their lines.
ghost use Rattle.std.specs.Prelude.{IfOk, IfSome};
ghost use Rattle.vt_journal.specs.Journal.{entry_words};
ghost use Rattle.vt_journal.specs.Says.{IsFitEntry};
ghost use Rattle.vt_journal.specs.Readers.{Finds, Takes};
ghost use Rattle.vt_journal.specs.Words.{joined_by_blanks};

use crate::callers::take_caller;
use crate::numbers::take_number;
use crate::reading::take_event;
use crate::replies::take_reply;
use crate::words::{Words, take_word};
use std::alloc::Global;
use vt_base::NoMemory;
use vt_events::Entry;

/// The entry that the line of this version spells.
pub(crate) fn read_entry(alloc: Global, line: &[u8], version: u8) -> Result<Option<Entry>, NoMemory>
    ensures finds { IfOk result
        (Finds (λ e. joined_by_blanks (entry_words version e)) (IsFitEntry version) line.now) }
    ensures fit { IfOk result (λ found. IfSome found (IsFitEntry version)) }
{
    let mut words = Words::of(line);
    let entry = take_entry(alloc, &mut words, version)?;
    Ok(words.if_none_left(entry))
}

// The entry that the next words spell.
fn take_entry(alloc: Global, words: &mut Words, version: u8) -> Result<Option<Entry>, NoMemory>
    ensures takes { IfOk result (Takes (entry_words version) (IsFitEntry version) words.old words.new) }
    ensures fit { IfOk result (λ found. IfSome found (IsFitEntry version)) }
{
    let Some(caller) = take_caller(words, version) else {
        return Ok(None);
    };
    let Some(seq) = take_number(words, u64::from(u32::MAX)) else {
        return Ok(None);
    };
    let Some(event) = take_event(alloc, words)? else {
        return Ok(None);
    };
    if !take_word(words, b"=") {
        return Ok(None);
    }
    let Some(reply) = take_reply(alloc, words)? else {
        return Ok(None);
    };
    Ok(Some(Entry {
        caller,
        seq: seq as u32,
        event,
        reply,
    }))
}
