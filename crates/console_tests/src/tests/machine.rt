//! A machine that a session opens, and whether its calls have their answers. Rows are texts and numbers alone, helpers
//! have no clauses, and no `?` stands after a machine or a session is made, since each would have to drop it: so a test
//! is proved in seconds.
mod deaths;
mod marks;
mod row;
mod seen;
mod sessions;
mod typing;
mod walks;

use row::Row;
use seen::is_seen;
use session_text::{Session, read};
use std::alloc::Global;
use std::process::Abort;
use std::slice::from_ref;
use std::test::Fail;
use vt_base::{Bytes, CallerNo, NoMemory};
use vt_events::{Entry, Event, Reply};
use vt_journal::{Tail, print, read_event};
use vt_world::World;

// The end of the journal of one call.
const END: Tail = Tail::End {
    events: 0,
    bytes: 0,
};

// The machine that the session opens.
fn open(alloc: Global, session: &str) -> Result<World, Fail> {
    let session = read(alloc, session.as_bytes())?;
    start(alloc, &session)
}

fn start(alloc: Global, session: &Session) -> Result<World, Fail> {
    Ok(World::start(alloc, session.config(), session.key_tables())?)
}

// The journal of one call.
fn journal(alloc: Global, caller: CallerNo, event: Event, reply: Reply) -> Result<Bytes, NoMemory> {
    let entry = Entry {
        caller,
        seq: 0,
        event,
        reply,
    };
    printed(alloc, &entry)
}

fn printed(alloc: Global, entry: &Entry) -> Result<Bytes, NoMemory> {
    let mut text = Bytes::new(alloc);
    print(alloc, from_ref(entry), 2, &END, &mut text)?;
    Ok(text)
}

// Makes the call that the words spell, and returns its journal; empty if there is no such call.
fn made(alloc: Global, world: &mut World, p: u16, words: &[u8]) -> Result<Bytes, NoMemory> {
    let Some(caller) = CallerNo::new(p) else {
        return Ok(Bytes::new(alloc));
    };
    match read_event(alloc, words)? {
        Some(event) => called(alloc, world, caller, event),
        None => Ok(Bytes::new(alloc)),
    }
}

fn called(
    alloc: Global,
    world: &mut World,
    caller: CallerNo,
    event: Event,
) -> Result<Bytes, NoMemory> {
    let reply = world.call(alloc, caller, &event)?;
    journal(alloc, caller, event, reply)
}

// Whether the journal of one call has this answer.
fn answers(journal: &[u8], reply: &str) -> bool {
    match journal.strip_suffix(b"\n%end 0 0\n") {
        Some(entry) => match entry.strip_suffix(reply.as_bytes()) {
            Some(call) => call.ends_with(b" = "),
            None => false,
        },
        None => false,
    }
}

// Makes the call, and returns whether it has this answer.
fn is_answered(
    alloc: Global,
    world: &mut World,
    p: u16,
    words: &str,
    reply: &str,
) -> Result<bool, NoMemory> {
    let journal = made(alloc, world, p, words.as_bytes())?;
    Ok(answers(journal.as_slice(), reply))
}

fn is_so(alloc: Global, world: &mut World, row: Row) -> Result<bool, NoMemory> {
    match row {
        Row::Call(p, words, reply) => is_answered(alloc, world, p, words, reply),
        Row::Keyed(words, n) => {
            Ok(is_answered(alloc, world, 0, words, "ok")? && is_seen(world, Row::Front(n)))
        }
        seen => Ok(is_seen(world, seen)),
    }
}

fn check_row(by: &impl Abort, alloc: Global, world: &mut World, row: Row) -> Result<(), NoMemory> {
    let so = is_so(alloc, world, row)?;
    assert!(by; so, "{}", row.words());
    Ok(())
}

fn check_all(by: &impl Abort, alloc: Global, world: &mut World, rows: &[Row]) -> Result<(), Fail> {
    for row in rows {
        check_row(by, alloc, world, *row)?;
    }
    Ok(())
}

// Makes the calls of these rows one after another, on a machine that the session opens, and checks the facts.
fn check(by: &impl Abort, alloc: Global, session: &str, rows: &[Row]) -> Result<(), Fail> {
    let mut world = open(alloc, session)?;
    check_all(by, alloc, &mut world, rows)
}
