//! The text of a journal, in either version.
ghost use Rattle.std.specs.Prelude.{◌≡◌, ◌<◌, ◌≤◌, ◌^◌, ◌∷◌, ◌++◌, decimal, map, option_copied, IfSome, OnOk};
ghost use Rattle.std.specs.List.{All};
ghost use Rattle.vt_events.specs.Plain.{plain_entry, plain_event, plain_reply};
ghost use Rattle.vt_base.specs.Bytes.{Adds};
ghost use Rattle.vt_base.specs.Limits.{processes};
ghost use Rattle.vt_journal.specs.Callers.{IsVersion};
ghost use Rattle.vt_journal.specs.Journal.{entry_words, first_words, journal_text, line_text, tail_words};
ghost use Rattle.vt_journal.specs.Replies.{IsFitReply};
ghost use Rattle.vt_journal.specs.Says.{IsFitEntry, IsFitTail};
ghost use Rattle.vt_journal.specs.Text.{AddsPart, blank_before_each};
ghost use Rattle.vt_journal.specs.Words.{IsFit, event_words, held_words, reply_words};

use crate::adding::{add_bytes, add_end, add_named, add_next, make_room};
use crate::callers::add_caller;
use crate::{Full, Tail};
use std::alloc::Global;
use vt_base::{Bytes, NoMemory};
use vt_events::{Entry, Event, Parts, Reply};

/// Adds the journal text of the entries and their end, in this version. The text can be read again. It is made as a
/// text of its own first, so that `rest` and its room are unchanged if memory runs out.
pub fn print(
    alloc: Global,
    entries: &[Entry],
    version: u8,
    end: &Tail,
    rest: &mut Bytes,
) -> Result<(), NoMemory>
    requires version { IsVersion version }
    requires callers { version ≡ 1 → All (λ entry. entry.caller ≤ processes) entries.now }
    ensures adds { Adds (journal_text version entries.now end.now) rest.old rest.new result }
    ensures fit { OnOk result (All (IsFitEntry version) (map plain_entry entries.now)) }
    ensures end { OnOk result (IsFitTail end.now) }
{
    let mut text = Bytes::new(alloc);
    add_lines(alloc, entries, version, end, &mut text)?;
    if rest.as_slice().is_empty() {
        // There is nothing to copy.
        *rest = text;
        return Ok(());
    }
    make_room(alloc, rest, text.as_slice().len())?;
    rest.append(text.as_slice());
    Ok(())
}

fn add_lines(
    alloc: Global,
    entries: &[Entry],
    version: u8,
    end: &Tail,
    rest: &mut Bytes,
) -> Result<(), NoMemory>
    requires { version ≡ 1 → All (λ entry. entry.caller ≤ processes) entries.now }
    ensures ok { OnOk result
        (rest.new.bytes ≡ rest.old.bytes ++ journal_text version entries.now end.now) }
    ensures fit { OnOk result (All (IsFitEntry version) (map plain_entry entries.now)) }
    ensures end { OnOk result (IsFitTail end.now) }
{
    add_first(alloc, rest, version)?;
    for entry in entries {
        add_entry(alloc, rest, version, entry)?;
    }
    add_tail(alloc, rest, end)?;
    Ok(())
}

/// Adds the first line of a journal.
pub(crate) fn add_first(alloc: Global, text: &mut Bytes, version: u8) -> Result<(), NoMemory>
    ensures { OnOk result (text.new.bytes ≡ text.old.bytes ++ line_text (first_words version)) }
{
    add_numbered(alloc, text, b"%journal", &[u64::from(version)])
}

// Adds a line of a name and numbers, with a blank before each number.
fn add_numbered(
    alloc: Global,
    text: &mut Bytes,
    name: &[u8],
    numbers: &[u64],
) -> Result<(), NoMemory>
    ensures { OnOk result
        (text.new.bytes ≡ text.old.bytes ++ line_text (name.now ∷ map decimal numbers.now)) }
{
    text.add(alloc, name)?;
    for n in numbers {
        add_next(alloc, text, *n)?;
    }
    add_end(alloc, text)?;
    Ok(())
}

/// Adds the line of an entry.
pub(crate) fn add_entry(
    alloc: Global,
    text: &mut Bytes,
    version: u8,
    entry: &Entry,
) -> Result<(), NoMemory>
    requires { version ≡ 1 → entry.now.caller ≤ processes }
    ensures ok { OnOk result
        (text.new.bytes ≡ text.old.bytes ++ line_text (entry_words version entry.now)) }
    ensures fit { OnOk result (IsFitEntry version (plain_entry entry.now)) }
{
    add_caller(alloc, text, entry.caller, version)?;
    add_next(alloc, text, u64::from(entry.seq))?;
    add_event_words(alloc, text, &entry.event)?;
    text.add(alloc, b" =")?;
    add_reply_words(alloc, text, &entry.reply)?;
    add_end(alloc, text)?;
    Ok(())
}

/// Adds the last line of a journal.
pub(crate) fn add_tail(alloc: Global, text: &mut Bytes, end: &Tail) -> Result<(), NoMemory>
    ensures ok { OnOk result (text.new.bytes ≡ text.old.bytes ++ line_text (tail_words end.now)) }
    ensures fit { OnOk result (IsFitTail end.now) }
{
    match end {
        Tail::End { events, bytes } => {
            add_numbered(alloc, text, b"%end", &[u64::from(*events), *bytes])
        }
        Tail::Full(
            Full {
                events,
                bytes,
                charge,
            },
        ) => {
            let numbers = [u64::from(*events), *bytes, u64::from(*charge)];
            add_numbered(alloc, text, b"%full", &numbers)
        }
    }
}

/// Adds the words of a call, with a blank before each. They can be read again. They are made as a text of
/// their own first, so that `text` and its room are unchanged if memory runs out.
pub fn add_event(alloc: Global, text: &mut Bytes, e: &Event) -> Result<(), NoMemory>
    ensures adds { Adds (blank_before_each (event_words e.now)) text.old text.new result }
    ensures fit { OnOk result (IsFit (plain_event e.now)) }
{
    let mut words = Bytes::new(alloc);
    add_event_words(alloc, &mut words, e)?;
    text.add(alloc, words.as_slice())
}

// Adds the words of a call, piece by piece: if memory runs out, a part of them may stand in the text.
fn add_event_words(alloc: Global, text: &mut Bytes, e: &Event) -> Result<(), NoMemory>
    ensures adds { AddsPart (blank_before_each (event_words e.now)) text.old text.new result }
    ensures fit { OnOk result (IsFit (plain_event e.now)) }
{
    let parts = Parts::of(e);
    add_named(alloc, text, parts.kind().name(), parts.numbers())?;
    add_held(alloc, text, parts.held())?;
    Ok(())
}

// Adds a blank and the bytes that a call holds, if it holds any.
fn add_held(alloc: Global, text: &mut Bytes, held: Option<&[u8]>) -> Result<(), NoMemory>
    ensures adds { AddsPart (blank_before_each (held_words (option_copied held.entry)))
        text.old text.new result }
    ensures fit { IfSome (option_copied held.entry) (λ bytes. All (λ b. b < 2 ^ 8) bytes) }
{
    match held {
        None => Ok(()),
        Some(b) => add_bytes(alloc, text, b),
    }
}

/// Adds the words of an answer, with a blank before each. They can be read again. They are made as a text of
/// their own first, so that `text` and its room are unchanged if memory runs out.
pub fn add_reply(alloc: Global, text: &mut Bytes, r: &Reply) -> Result<(), NoMemory>
    ensures adds { Adds (blank_before_each (reply_words r.now)) text.old text.new result }
    ensures fit { OnOk result (IsFitReply (plain_reply r.now)) }
{
    let mut words = Bytes::new(alloc);
    add_reply_words(alloc, &mut words, r)?;
    text.add(alloc, words.as_slice())
}

// Adds the words of an answer, piece by piece: if memory runs out, a part of them may stand in the text.
fn add_reply_words(alloc: Global, text: &mut Bytes, r: &Reply) -> Result<(), NoMemory>
    ensures adds { AddsPart (blank_before_each (reply_words r.now)) text.old text.new result }
    ensures fit { OnOk result (IsFitReply (plain_reply r.now)) }
{
    match r {
        Reply::Done => add_name(alloc, text, b" ok"),
        Reply::Num(n) => add_one(alloc, text, b" num", u64::from(*n)),
        Reply::State { front, mask } => {
            add_named(alloc, text, b"state", &[u16::from(*front)])?;
            add_next(alloc, text, *mask)?;
            Ok(())
        }
        Reply::Text(b) => {
            add_name(alloc, text, b" bytes")?;
            add_bytes(alloc, text, b.as_slice())?;
            Ok(())
        }
        Reply::Mode(m) => {
            let numbers = [m.mode, m.waitv, m.relsig, m.acqsig, m.frsig];
            add_named(alloc, text, b"mode", &numbers)
        }
        Reply::Act { kind, value } => {
            add_named(alloc, text, b"act", &[u16::from(*kind), *value])
        }
        Reply::Wait => add_name(alloc, text, b" wait"),
        Reply::Sigs(signals) => add_one(alloc, text, b" sigs", signals.bits()),
        Reply::Err(errno) => add_one(alloc, text, b" err", u64::from(errno.number())),
    }
}

// Adds the name of an answer.
#[inline(always)]
fn add_name(alloc: Global, text: &mut Bytes, name: &[u8]) -> Result<(), NoMemory>
    ensures { AddsPart name.now text.old text.new result }
{
    text.add(alloc, name)?;
    Ok(())
}

// Adds the name of an answer, and a blank and its number.
#[inline(always)]
fn add_one(alloc: Global, text: &mut Bytes, name: &[u8], n: u64) -> Result<(), NoMemory>
    ensures { AddsPart (name.now ++ 0x20 ∷ decimal n) text.old text.new result }
{
    text.add(alloc, name)?;
    add_next(alloc, text, n)?;
    Ok(())
}
