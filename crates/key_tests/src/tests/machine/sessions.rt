//! Scan bytes, and the results of their keys.
use super::Wanted::{Bytes, Nothing};
use super::{Entry, MODES, Wanted, is_wanted, start, tables};
use crate::tests::checks::check_made;
use key_machine::{KbState, Keyboard};
use key_syms::Pair;
use key_tables::KeyTables;
use scan_codes::Scanner;
use std::alloc::Global;
use vt_base::NoMemory;

// Scan bytes, one after another, and the result of each of them in this mode; an empty text is `Nothing`.
type Session = (&'static str, u8, &'static [u8], &'static [&'static [u8]]);

const SESSIONS: &[Session] = &[
    (
        "a key goes up as what it went down as",
        3,
        b"\x2A\xAA\x1E\x9E",
        &[b"", b"", b"a", b""],
    ),
    (
        "Shift",
        3,
        b"\x2A\x1E\xAA\x9E\x1E",
        &[b"", b"A", b"", b"", b"a"],
    ),
    (
        "two keys of one modifier",
        3,
        b"\x2A\x1D\xAA\x9D\x2A\x36\xAA\x1E\xB6\x1E",
        &[b"", b"", b"", b"", b"", b"", b"", b"A", b"", b"a"],
    ),
    (
        "CapsLock and Shift",
        3,
        b"\x3A\xBA\x2A\x1E\x9E\xAA",
        &[b"", b"", b"", b"a", b"", b""],
    ),
    (
        "a sticky modifier is for one key",
        3,
        b"\x29\xA9\x1E\x9E\x1E",
        &[b"", b"", b"A", b"", b"a"],
    ),
    (
        "an accent and a letter, and the first of equal pairs",
        3,
        b"\x28\xA8\x12\x92",
        &[b"", b"", b"\xC3\xA9", b""],
    ),
    (
        "the same in K_XLATE",
        1,
        b"\x28\xA8\x12\x92",
        &[b"", b"", b"\xE9", b""],
    ),
    (
        "an accent twice",
        3,
        b"\x28\xA8\x28\xA8\x1E",
        &[b"", b"", b"'", b"", b"a"],
    ),
    (
        "an accent and a space, and an accent and another letter",
        3,
        b"\x28\xA8\x39\x28\xA8\x1E",
        &[b"", b"", b"'", b"", b"", b"'a"],
    ),
    (
        "an accent waits while a function key sends its string",
        3,
        b"\x28\xA8\x3B\xBB\x12",
        &[b"", b"", b"\x1B[1~", b"", b"\xC3\xA9"],
    ),
    (
        "Compose makes a letter an accent",
        3,
        b"\x2E\xAE\x12\x92\x1E",
        &[b"", b"", b"", b"", b"ea"],
    ),
    (
        "a number goes out when Control goes up",
        3,
        b"\x1D\x4F\xCF\x50\xD0\x9D\x1D\x9D",
        &[b"", b"", b"", b"", b"", b"A", b"", b""],
    ),
    (
        "keycodes",
        2,
        b"\x55\xD5\x1E\x9E",
        &[b"\x00\x81\xC8", b"\x80\x81\xC8", b"\x1E", b"\x9E"],
    ),
];

const ENTRIES: &[Entry] = &[
    (0, 42, 8, 0),
    (1, 42, 1, 0x31),
    (0, 54, 8, 0),
    (1, 54, 8, 0),
    (0, 29, 8, 2),
    (1, 29, 8, 2),
    (0, 30, 2, 0x61),
    (1, 30, 2, 0x41),
    (0, 58, 12, 2),
    (0, 41, 10, 0),
    (0, 40, 7, 1),
    (0, 18, 2, 0x65),
    (0, 57, 1, 0x20),
    (0, 59, 4, 20),
    (0, 46, 12, 10),
    (4, 79, 13, 6),
    (4, 80, 13, 5),
];

const PAIRS: [Pair; 2] = [
    Pair {
        accent: 0x27,
        base: 0x65,
        result: 0xE9,
    },
    Pair {
        accent: 0x27,
        base: 0x65,
        result: 0x45,
    },
];

fn made(alloc: Global, entries: &[Entry]) -> Result<KeyTables, NoMemory> {
    let mut t = tables(alloc, &[0, 1, 4], entries)?;
    t.set_func(20, b"\x1B[1~");
    t.set_pairs(&PAIRS);
    Ok(t)
}

// Two keyboards of one console.
#[derive(Drop)]
struct Typing {
    first: Scanner,
    second: Scanner,
    keys: Keyboard,
    state: KbState,
}

fn types(typing: &mut Typing, t: &KeyTables, from: u8, b: u8, wanted: Wanted) -> bool {
    let scanned = if from == 0 {
        typing.first.push(b)
    } else {
        typing.second.push(b)
    };
    match scanned {
        Some(e) => {
            let out = typing.keys.key(from.min(1), e, t, &mut typing.state, MODES);
            is_wanted(&out, wanted)
        }
        None => false,
    }
}

// The answer that these bytes stand for.
fn wanted_of(bytes: &'static [u8]) -> Wanted {
    if bytes.is_empty() {
        Nothing
    } else {
        Bytes(bytes)
    }
}

fn nothing_typed(mode: u8) -> Typing {
    Typing {
        first: Scanner::start(),
        second: Scanner::start(),
        keys: Keyboard::start(),
        state: start(mode),
    }
}

fn is_said(t: &KeyTables, session: &Session) -> bool {
    let (_, mode, scans, said) = *session;
    let mut typing = nothing_typed(mode);
    let is_set = typing.first.set(85, 200).is_ok();
    for i in 0..scans.len() {
        if i >= said.len() || !types(&mut typing, t, 0, scans[i], wanted_of(said[i])) {
            return false;
        }
    }
    is_set && scans.len() == said.len()
}

fn plays(alloc: Global, session: &Session) -> Result<bool, NoMemory> {
    let t = made(alloc, ENTRIES)?;
    Ok(is_said(&t, session))
}

#[test]
fn scan_bytes_become_what_keys_say(rt: HostRuntime) {
    for session in SESSIONS {
        check_made(&rt, plays(rt.alloc(), session), session.0);
    }
}

const SHIFTED: &[Entry] = &[
    (0, 42, 8, 0),
    (1, 42, 8, 0),
    (0, 30, 2, 0x61),
    (1, 30, 2, 0x41),
];

// Keys of two keyboards: the keyboard, its scan byte, and the result.
const TYPED: &[(u8, u8, Wanted)] = &[
    (1, 0x2A, Nothing),
    (0, 0x1E, Bytes(b"A")),
    (1, 0x1E, Bytes(b"A")),
    (1, 0x9E, Nothing),
    (0, 0x1E, Bytes(b"A")),
    (0, 0x2A, Nothing),
    (1, 0xAA, Nothing),
    (1, 0x1E, Bytes(b"A")),
    (0, 0xAA, Nothing),
    (0, 0x1E, Bytes(b"a")),
    (1, 0x2A, Nothing),
];

fn types_all(typing: &mut Typing, t: &KeyTables) -> bool {
    for &(from, b, wanted) in TYPED {
        if !types(typing, t, from, b, wanted) {
            return false;
        }
    }
    true
}

// After the second keyboard has exited, its Shift is released too.
fn types_alone(typing: &mut Typing, t: &KeyTables) -> bool {
    typing.keys.unplug(1);
    types(typing, t, 0, 0x1E, Bytes(b"a"))
}

fn type_together(t: &KeyTables) -> bool {
    let mut typing = nothing_typed(3);
    types_all(&mut typing, t) && types_alone(&mut typing, t)
}

fn share_modifiers(alloc: Global) -> Result<bool, NoMemory> {
    let t = made(alloc, SHIFTED)?;
    Ok(type_together(&t))
}

#[test]
fn keyboards_type_together(rt: HostRuntime) {
    check_made(&rt, share_modifiers(rt.alloc()), "two keyboards");
}
