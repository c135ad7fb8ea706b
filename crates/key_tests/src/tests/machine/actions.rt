//! The effect of each action in each mode.
use super::Wanted::{Attention, Bytes, Last, Next, Nothing, Prev, Spawn, Switch};
use super::{DOWN, MODES, Wanted, says, start, tables};
use key_machine::{KbState, KeyModes, Keyboard, mode};
use key_tables::KeyTables;
use scan_codes::KeyEvent;
use std::alloc::Global;
use std::process::Abort;
use vt_base::NoMemory;

// Keys that are held don't repeat.
const HELD: KeyModes = KeyModes {
    repeat: false,
    ..MODES
};

const UP: KeyEvent = KeyEvent {
    down: false,
    ..DOWN
};

// The flags, the locked and the sticky modifiers.
type After = (u8, u8, u8);

// An action of keycode 30, if a modifier of weight 2 is sticky: its kind and value, the results of its press
// and its repeat, in K_XLATE as in K_UNICODE, and the flags and modifiers that are on then.
type Row = (u16, u16, Wanted, Wanted, After);

const ROWS: &[Row] = &[
    (0, 0, Nothing, Nothing, (0, 0, 2)),
    (2, 0x61, Bytes(b"a"), Bytes(b"a"), (0, 0, 0)),
    (3, 0x61, Bytes(b"\x1Ba"), Bytes(b"\x1Ba"), (0, 0, 0)),
    (4, 0, Bytes(b"\x1B[[A"), Bytes(b"\x1B[[A"), (0, 0, 0)),
    (5, 5, Bytes(b"\x1B[G"), Bytes(b"\x1B[G"), (0, 0, 0)),
    (6, 3, Bytes(b"\x1B[A"), Bytes(b"\x1B[A"), (0, 0, 0)),
    (7, 1, Nothing, Bytes(b"'"), (0, 0, 0)),
    (8, 1, Nothing, Nothing, (0, 0, 2)),
    (9, 1, Nothing, Nothing, (0, 2, 0)),
    (10, 1, Nothing, Nothing, (0, 0, 0)),
    (11, 7, Switch(7), Switch(7), (0, 0, 0)),
    (12, 1, Bytes(b"\r"), Bytes(b"\r"), (0, 0, 0)),
    (12, 2, Nothing, Nothing, (4, 0, 0)),
    (12, 3, Nothing, Nothing, (2, 0, 0)),
    (12, 4, Nothing, Nothing, (1, 0, 0)),
    (12, 5, Last, Last, (0, 0, 0)),
    (12, 6, Next, Next, (0, 0, 0)),
    (12, 7, Prev, Prev, (0, 0, 0)),
    (12, 8, Spawn, Spawn, (0, 0, 0)),
    (12, 9, Attention, Attention, (0, 0, 0)),
    (12, 10, Nothing, Nothing, (0, 0, 0)),
    (12, 11, Nothing, Nothing, (2, 0, 0)),
    (12, 12, Nothing, Nothing, (4, 0, 0)),
    (12, 13, Nothing, Nothing, (0, 0, 0)),
    (12, 14, Nothing, Nothing, (0, 0, 0)),
    (12, 15, Nothing, Nothing, (0, 0, 0)),
    (12, 16, Nothing, Nothing, (0, 0, 0)),
    (12, 17, Nothing, Nothing, (0, 0, 0)),
    (12, 18, Nothing, Nothing, (0, 0, 0)),
    (12, 19, Nothing, Nothing, (0, 0, 0)),
    (13, 7, Nothing, Nothing, (0, 0, 0)),
    (13, 0, Nothing, Nothing, (0, 0, 0)),
];

// The same of K_XLATE, and of K_UNICODE, if they differ.
const XLATE: &[Row] = &[
    (1, 0xE9, Bytes(b"\xE9"), Bytes(b"\xE9"), (0, 0, 0)),
    (2, 0x20AC, Nothing, Nothing, (0, 0, 0)),
];

const UNICODE: &[Row] = &[
    (1, 0xE9, Bytes(b"\xC3\xA9"), Bytes(b"\xC3\xA9"), (0, 0, 0)),
    (
        2,
        0x20AC,
        Bytes(b"\xE2\x82\xAC"),
        Bytes(b"\xE2\x82\xAC"),
        (0, 0, 0),
    ),
];

fn is_after(s: &KbState, after: After) -> bool {
    (s.flags, s.locks, s.sticky) == after
}

// The results of a press, a press that is held, a repeat, and a release in a mode, and the flags and modifiers
// after each.
#[derive(Clone, Copy)]
struct Acts {
    press: Wanted,
    held: Wanted,
    repeat: Wanted,
    up: Wanted,
    after: After,
}

fn acts_of(row: &Row) -> Acts {
    let (_, _, press, repeat, after) = *row;
    Acts {
        press,
        held: Nothing,
        repeat,
        up: Nothing,
        after,
    }
}

// In the modes in which no key acts except SAK, K_MEDIUMRAW sends the keycode.
fn idle_acts(row: &Row, raw: bool) -> Acts {
    let (kind, value, ..) = *row;
    let idle = if raw { Bytes(b"\x1E") } else { Nothing };
    let press = if kind == 12 && value == 9 {
        Attention
    } else {
        idle
    };
    Acts {
        press,
        held: idle,
        repeat: press,
        up: if raw { Bytes(b"\x9E") } else { Nothing },
        after: (0, 0, 2),
    }
}

fn are_acts(t: &KeyTables, mode: u8, acts: &Acts) -> bool {
    let mut s = start(mode);
    s.sticky = 2;
    let mut keys = Keyboard::start();
    says(&mut keys, &mut s, t, DOWN, MODES, acts.press)
        && is_after(&s, acts.after)
        && says(&mut keys, &mut s, t, DOWN, HELD, acts.held)
        && says(&mut keys, &mut s, t, DOWN, MODES, acts.repeat)
        && is_after(&s, acts.after)
        && says(&mut keys, &mut s, t, UP, MODES, acts.up)
}

fn made(alloc: Global, row: &Row) -> Result<KeyTables, NoMemory> {
    let (kind, value, ..) = *row;
    let entries = [(0, 30, kind, value), (2, 30, kind, value)];
    let mut t = tables(alloc, &[0, 2], &entries)?;
    t.set_func(0, b"\x1B[[A");
    Ok(t)
}

// Whether the action does this in this mode.
fn is_act(alloc: Global, row: &Row, mode: u8) -> Result<bool, NoMemory> {
    let t = made(alloc, row)?;
    Ok(are_acts(&t, mode, &acts_of(row)))
}

// Whether the action is idle in the other modes.
fn is_idle(alloc: Global, row: &Row) -> Result<bool, NoMemory> {
    let t = made(alloc, row)?;
    Ok(
        are_acts(&t, mode::RAW, &idle_acts(row, false))
            && are_acts(&t, mode::MEDIUMRAW, &idle_acts(row, true))
            && are_acts(&t, mode::OFF, &idle_acts(row, false)),
    )
}

fn check(by: &impl Abort, made: Result<bool, NoMemory>, row: &Row) {
    let (kind, value, ..) = *row;
    assert!(by; matches!(made, Ok(true)), "{kind} {value}");
}

#[test]
fn each_action_acts_in_each_mode(rt: HostRuntime) {
    let alloc = rt.alloc();
    for row in ROWS {
        check(&rt, is_act(alloc, row, mode::XLATE), row);
        check(&rt, is_act(alloc, row, mode::UNICODE), row);
        check(&rt, is_idle(alloc, row), row);
    }
    for row in XLATE {
        check(&rt, is_act(alloc, row, mode::XLATE), row);
        check(&rt, is_idle(alloc, row), row);
    }
    for row in UNICODE {
        check(&rt, is_act(alloc, row, mode::UNICODE), row);
    }
}
