//! The charges of calls: 64, the bytes that they hold, and the most bytes of their answers.
use super::checks::check_made;
use std::alloc::Global;
use std::process::Abort;
use vt_base::{Bytes, NoMemory};
use vt_events::{Event, Reply, charge};
use vt_journal::read_event;

// The words of a call, and its charge. A read of 4,097 bytes and a dump of no kind are refused.
const ANSWERED: &[(&[u8], u32)] = &[
    (b"scan 1e", 64),
    (b"exit", 64),
    (b"reldisp 0 1", 64),
    (b"read 3 1", 65),
    (b"read 3 4096", 4_160),
    (b"read 3 4097", 4_160),
    (b"getfunc 3 400", 319),
    (b"getdia 3", 3_136),
    (b"getmap 3", 576),
    (b"getpal 3", 112),
    (b"getmode 3", 64),
    (b"dump 0 400", 65_089),
    (b"dump 1 400", 130_118),
    (b"dump 2 400", 260_164),
    (b"dump 3 400", 64),
    (b"signals", 64),
];

// The charges of calls that hold 24 bytes.
const HELD: &[(&[u8], u32)] = &[
    (
        b"write 3 3234206279746573206172652074776f2070616972732e2e",
        88,
    ),
    (
        b"setfunc 3 400 3234206279746573206172652074776f2070616972732e2e",
        88,
    ),
    (
        b"setdia 3 3234206279746573206172652074776f2070616972732e2e",
        88,
    ),
    (
        b"setmap 3 3234206279746573206172652074776f2070616972732e2e",
        88,
    ),
    (
        b"setpal 3 3234206279746573206172652074776f2070616972732e2e",
        88,
    ),
];

fn is_charged(alloc: Global, words: &[u8], wanted: u32) -> Result<bool, NoMemory> {
    match read_event(alloc, words)? {
        Some(event) => Ok(charge(&event) == wanted),
        None => Ok(false),
    }
}

fn check_charges(by: &impl Abort, alloc: Global, calls: &[(&[u8], u32)]) {
    for &(words, wanted) in calls {
        check_made(by, is_charged(alloc, words, wanted), words);
    }
}

#[test]
fn counts_the_greatest_answer(rt: HostRuntime) {
    check_charges(&rt, rt.alloc(), ANSWERED);
}

#[test]
fn counts_held_bytes(rt: HostRuntime) {
    check_charges(&rt, rt.alloc(), HELD);
}

// A text in so much room.
fn roomy(alloc: Global, room: usize) -> Result<Bytes, NoMemory> {
    let mut text = Bytes::with_room(alloc, room.max(2))?;
    text.append(b"hi");
    Ok(text)
}

fn is_copy(event: &Event) -> bool {
    match event {
        Event::SetFunc(fd, i, b) => {
            *fd == 3 && *i == 4 && b.room() == 0 && b.as_slice() == b"hi".as_slice()
        }
        _ => false,
    }
}

fn copies(alloc: Global, event: &Event) -> Result<bool, NoMemory> {
    let copy = event.copy(alloc)?;
    Ok(is_copy(&copy))
}

fn copies_event(alloc: Global) -> Result<bool, NoMemory> {
    let b = roomy(alloc, 5)?;
    copies(alloc, &Event::SetFunc(3, 4, b))
}

fn is_text(reply: &Reply) -> bool {
    match reply {
        Reply::Text(text) => text.as_slice() == b"hi".as_slice(),
        _ => false,
    }
}

// The copy of an answer into a text that held other bytes.
fn copies_into(b: Bytes, room: Bytes) -> bool {
    b.as_slice().len() <= room.room() && is_text(&Reply::Text(b).copy_into(room))
}

fn copies_text(alloc: Global, b: Bytes) -> Result<bool, NoMemory> {
    let mut room = Bytes::from_slice(alloc, b"x")?;
    room.grow(alloc, 2)?;
    Ok(copies_into(b, room))
}

fn copies_answer(alloc: Global) -> Result<bool, NoMemory> {
    let b = roomy(alloc, 2)?;
    copies_text(alloc, b)
}

#[test]
fn copies_have_no_room(rt: HostRuntime) {
    check_made(&rt, copies_event(rt.alloc()), "the copy of a call");
    check_made(&rt, copies_answer(rt.alloc()), "the copy of an answer");
}
