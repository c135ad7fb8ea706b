//! The parts of calls, by the table of calls in docs/reference/journal.md.
use super::checks::check_made;
use std::alloc::Global;
use vt_base::{Bytes, NoMemory};
use vt_events::{Event, Kind, Parts, same_event};
use vt_journal::read_event;

// The words of a call, its name, its numbers, and the bytes that it holds, if it holds any.
const CALLS: &[(&[u8], &[u8], &[u16], Option<&[u8]>)] = &[
    (b"scan e0", b"scan", &[], Some(b"\xe0")),
    (b"exit", b"exit", &[], None),
    (b"write 1 6869", b"write", &[1], Some(b"hi")),
    (b"setdia 1 -", b"setdia", &[1], Some(b"")),
    (
        b"setmode 0 1 2 10 12 3",
        b"setmode",
        &[0, 1, 2, 10, 12, 3],
        None,
    ),
];

fn is_held(held: Option<&[u8]>, wanted: Option<&[u8]>) -> bool {
    match (held, wanted) {
        (None, None) => true,
        (Some(bytes), Some(others)) => bytes == others,
        _ => false,
    }
}

// Whether the kind has this form.
fn is_form(kind: Kind, name: &[u8], numbers: &[u16], held: Option<&[u8]>) -> bool {
    kind.name() == name && kind.count() == numbers.len() && kind.holds_bytes() == held.is_some()
}

// Whether these are the parts of the call.
fn are_parts(event: &Event, kind: Kind, numbers: &[u16], held: Option<&[u8]>) -> bool {
    let parts = Parts::of(event);
    parts.kind() == kind && parts.numbers() == numbers && is_held(parts.held(), held)
}

// Whether the call of the kind, the numbers and the bytes is this one.
fn is_call(
    alloc: Global,
    event: &Event,
    kind: Kind,
    numbers: &[u16],
    held: &[u8],
) -> Result<bool, NoMemory> {
    if kind.count() != numbers.len() || !kind.takes(held.len()) {
        return Ok(false);
    }
    let bytes = Bytes::from_slice(alloc, held)?;
    Ok(same_event(&kind.call(numbers, bytes), event))
}

fn has_parts(
    alloc: Global,
    event: &Event,
    name: &[u8],
    numbers: &[u16],
    held: Option<&[u8]>,
) -> Result<bool, NoMemory> {
    let Some(kind) = Kind::named(name) else {
        return Ok(false);
    };
    if !is_form(kind, name, numbers, held) || !are_parts(event, kind, numbers, held) {
        return Ok(false);
    }
    match held {
        Some(bytes) => is_call(alloc, event, kind, numbers, bytes),
        None => is_call(alloc, event, kind, numbers, b"x"),
    }
}

fn reads_parts(
    alloc: Global,
    words: &[u8],
    name: &[u8],
    numbers: &[u16],
    held: Option<&[u8]>,
) -> Result<bool, NoMemory> {
    match read_event(alloc, words)? {
        Some(event) => has_parts(alloc, &event, name, numbers, held),
        None => Ok(false),
    }
}

#[test]
fn gives_the_parts(rt: HostRuntime) {
    for &(words, name, numbers, held) in CALLS {
        check_made(
            &rt,
            reads_parts(rt.alloc(), words, name, numbers, held),
            words,
        );
    }
}
