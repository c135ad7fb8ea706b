//! Calls of a machine of the library, which no command makes one by one.
use crate::spelling::{add_words, put, put_number};
use session_text::{SError, read};
use std::alloc::{AllocError, Global};
use vt_base::{Bytes, CallerNo, NoMemory};
use vt_events::{Entry, Event};
use vt_journal::{Tail, print, read_event};
use vt_world::{World, spare_for};

/// The end of the journal of one call.
const END: Tail = Tail::End {
    events: 0,
    bytes: 0,
};

/// The machine that the session opens, if the text is a session.
pub(crate) fn opened(alloc: Global, session: &[u8]) -> Result<Option<World>, NoMemory> {
    match read(alloc, session) {
        Ok(session) => {
            let world = World::start(alloc, session.config(), session.key_tables())?;
            Ok(Some(world))
        }
        Err(SError::Fault(_)) => Ok(None),
        Err(SError::NoMemory) => Err(NoMemory),
    }
}

/// Makes the call, and adds its answer as a journal spells it.
pub(crate) fn add_reply(
    alloc: Global,
    world: &mut World,
    p: u16,
    line: &str,
    text: &mut Vec<u8>,
) -> Result<(), NoMemory> {
    let mut words = Vec::new(alloc);
    add_words(alloc, line, &mut words)?;
    let journal = journal_of(alloc, world, p, words.as_slice())?;
    let mut caller = Vec::new(alloc);
    put_caller(&mut caller, p)?;
    match reply_in(journal.as_slice(), caller.as_slice(), words.as_slice()) {
        Some(reply) => put(text, reply)?,
        None => put(text, b" isn't the one spelling of a call")?,
    }
    Ok(())
}

// The word of a caller in a journal of version 2: a case calls a caller by its number.
fn put_caller(text: &mut Vec<u8>, p: u16) -> Result<(), AllocError> {
    if p == 0 {
        return put(text, b"k0");
    }
    put(text, b"p")?;
    put_number(text, u64::from(p))
}

// The journal of one call after its words.
fn reply_in<'a>(journal: &'a [u8], caller: &[u8], words: &[u8]) -> Option<&'a [u8]> {
    let entry = journal.strip_prefix(b"%journal 2\n")?;
    let call = entry.strip_prefix(caller)?.strip_prefix(b" 0 ")?;
    call.strip_prefix(words)?.strip_suffix(b"\n%end 0 0\n")
}

// Makes the call, and gives the journal of it alone.
fn journal_of(alloc: Global, world: &mut World, p: u16, words: &[u8]) -> Result<Bytes, NoMemory> {
    let mut text = Bytes::new(alloc);
    let Some(caller) = CallerNo::new(p) else {
        return Ok(text);
    };
    let Some(event) = read_event(alloc, words)? else {
        return Ok(text);
    };
    let entry = made(alloc, world, caller, event)?;
    print(alloc, &[entry], 2, &END, &mut text)?;
    Ok(text)
}

fn made(
    alloc: Global,
    world: &mut World,
    caller: CallerNo,
    event: Event,
) -> Result<Entry, NoMemory> {
    let spare = spare_for(alloc, &event, world.size())?;
    let (reply, _unused) = world.step(caller, &event, spare);
    Ok(Entry {
        caller,
        seq: 0,
        event,
        reply,
    })
}
