//! The effect of the modes of the screen and of the flags on the bytes that keys send, with Meta as K_METABIT.
use super::Wanted::Bytes;
use super::{DOWN, MODES, is_wanted, start, tables};
use crate::tests::checks::{check, check_made};
use key_machine::{KbState, KeyBytes, KeyModes, Keyboard, meta, mode};
use key_tables::KeyTables;
use std::alloc::Global;
use vt_base::NoMemory;

const KEYPAD: KeyModes = KeyModes {
    keypad: true,
    newline: true,
    ..MODES
};

const CURSOR: KeyModes = KeyModes {
    cursor: true,
    newline: true,
    ..MODES
};

// The bytes that an action of keycode 30 sends: its kind and its value, the modes, the flags, and the bytes.
type Sent = (&'static str, (u16, u16), KeyModes, u8, &'static [u8]);

const SENT: &[Sent] = &[
    ("K_METABIT", (3, 0x61), MODES, 0, b"\xE1"),
    ("a digit with NumLock", (5, 9), MODES, 2, b"9"),
    ("Enter", (5, 14), MODES, 2, b"\r"),
    ("the comma of the pad", (5, 15), MODES, 2, b","),
    ("Insert of the pad", (5, 0), MODES, 0, b"\x1B[2~"),
    ("Remove of the pad", (5, 16), MODES, 0, b"\x1B[3~"),
    ("Up of the pad", (5, 8), MODES, 0, b"\x1B[A"),
    ("plus without NumLock", (5, 10), MODES, 0, b"+"),
    // With NumLock.
    ("a digit with DECPAM", (5, 0), KEYPAD, 2, b"\x1BOp"),
    ("Enter with DECPAM has no LF", (5, 14), KEYPAD, 2, b"\x1BOM"),
    ("NumLock with DECPAM", (12, 3), KEYPAD, 2, b"\x1BOP"),
    ("Left with DECCKM", (6, 1), CURSOR, 0, b"\x1BOD"),
    ("Right of the pad with DECCKM", (5, 6), CURSOR, 0, b"\x1BOC"),
    ("Return in newline mode", (12, 1), CURSOR, 0, b"\r\n"),
    ("Enter in newline mode", (5, 14), CURSOR, 0, b"\r\n"),
];

fn sends(t: &KeyTables, m: KeyModes, flags: u8, bytes: &'static [u8]) -> bool {
    let mut s = start(mode::UNICODE);
    s.meta = meta::METABIT;
    s.flags = flags;
    is_wanted(&Keyboard::start().key(0, DOWN, t, &mut s, m), Bytes(bytes))
}

fn is_sent(alloc: Global, case: &Sent) -> Result<bool, NoMemory> {
    let (_, (kind, value), modes, flags, bytes) = *case;
    let mut t = tables(alloc, &[0], &[(0, 30, kind, value)])?;
    t.set_func(21, b"\x1B[2~");
    t.set_func(22, b"\x1B[3~");
    Ok(sends(&t, modes, flags, bytes))
}

#[test]
fn modes_change_what_is_sent(rt: HostRuntime) {
    for case in SENT {
        check_made(&rt, is_sent(rt.alloc(), case), case.0);
    }
}

fn is_plain(s: &KbState) -> bool {
    s.mode == 3
        && s.meta == 4
        && (s.flags, s.defaults, s.locks, s.sticky) == (0, 0, 0, 0)
        && s.lights.is_none()
}

fn keeps_bytes() -> bool {
    let mut bytes = KeyBytes::new();
    let was_empty = bytes.as_slice().is_empty();
    bytes.push(0x1B);
    bytes.push(b'[');
    was_empty && bytes.as_slice() == b"\x1B[".as_slice()
}

#[test]
fn starts_plain(rt: HostRuntime) {
    check(&rt, is_plain(&KbState::start()), "the state at the start");
    check(&rt, keeps_bytes(), "the bytes of a key");
}
