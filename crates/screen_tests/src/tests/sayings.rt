//! The side effects of each row of the table, and the modes that it sets. The answers are those of
//! console_codes(4) and of this project's own rules.
use super::checks::check_made;
use super::{start, written};
use std::alloc::Global;
use vt_base::{NoMemory, Size};
use vt_screen::{Out, Outs, ScreenState};

const SIZE: Size = Size { rows: 3, cols: 10 };

#[derive(Clone, Copy)]
pub(crate) enum Said {
    Nothing,
    Report(&'static [u8]),
    To(u8),
    Last,
    Lights(u8),
    Bell,
}

// A text of at most 64 bytes, and its side effect.
type Case = (&'static [u8], Said);

const CASES: &[Case] = &[
    (b"\x07", Said::Bell),
    (b"\x1B[6n", Said::Report(b"\x1B[1;1R")),
    (b"\x1B[3;10H\x1B[6n", Said::Report(b"\x1B[3;10R")),
    (
        b"\x1B[2;3r\x1B[?6h\x1B[2;4H\x1B[6n",
        Said::Report(b"\x1B[2;4R"),
    ),
    (b"\x1B[2;3r\x1B[3;4H\x1B[6n", Said::Report(b"\x1B[3;4R")),
    (b"\x1B[5n", Said::Report(b"\x1B[0n")),
    (b"\x1B[n", Said::Nothing),
    (b"\x1B[7n", Said::Nothing),
    (b"\x1B[?6n", Said::Nothing),
    (b"\x1B[c", Said::Report(b"\x1B[?6c")),
    (b"\x1B[0c", Said::Report(b"\x1B[?6c")),
    (b"\x1B[1c", Said::Nothing),
    (b"\x1BZ", Said::Report(b"\x1B[?6c")),
    (b"\x1B[q", Said::Lights(0)),
    (b"\x1B[1q", Said::Lights(1)),
    (b"\x1B[2q", Said::Lights(2)),
    (b"\x1B[3q", Said::Lights(4)),
    (b"\x1B[4q", Said::Nothing),
    (b"\x1B[12;1]", Said::To(1)),
    (b"\x1B[12;63]", Said::To(63)),
    (b"\x1B[12;64]", Said::Nothing),
    (b"\x1B[12]", Said::Nothing),
    (b"\x1B[15]", Said::Last),
    (b"\x1B[9;5]\x1B[10;5]\x1B[11;5]\x1B[14;5]", Said::Nothing),
    (b"\x1B[2;3r\x1B[1;4H\x1B[6n", Said::Report(b"\x1B[1;4R")),
    (b"\x1B]0;t\x07", Said::Nothing),
];

// A text, and after it: cursor keys, reversed, autowrap, repeat, visible, keypad, control characters
// shown.
type Setting = (&'static [u8], [bool; 7]);

const SETTINGS: &[Setting] = &[
    (b"", [false, false, true, true, true, false, false]),
    (b"\x1B[?1h", [true, false, true, true, true, false, false]),
    (b"\x1B[?5h", [false, true, true, true, true, false, false]),
    (b"\x1B[?7l", [false, false, false, true, true, false, false]),
    (b"\x1B[?8l", [false, false, true, false, true, false, false]),
    (
        b"\x1B[?25l",
        [false, false, true, true, false, false, false],
    ),
    (
        b"\x1B[?1;5;25l\x1B[?1;25h",
        [true, false, true, true, true, false, false],
    ),
    (b"\x1B=", [false, false, true, true, true, true, false]),
    (
        b"\x1B=\x1B>",
        [false, false, true, true, true, false, false],
    ),
    (b"\x1B[3h", [false, false, true, true, true, false, true]),
    (
        b"\x1B[3h\x1B[3l",
        [false, false, true, true, true, false, false],
    ),
    (b"\x1B[11m", [false, false, true, true, true, false, true]),
    (
        b"\x1B[?1;5h\x1B[?7;8;25l\x1B=\x1B[3h\x1Bc",
        [false, false, true, true, true, false, false],
    ),
    (
        b"\x1B[1;5;25h",
        [false, false, true, true, true, false, false],
    ),
    (
        b"\x1B[?3;4h",
        [false, false, true, true, true, false, false],
    ),
];

pub(crate) fn is_said(out: Option<&Out>, said: Said) -> bool {
    match (out, said) {
        (None, Said::Nothing) => true,
        (Some(Out::Report(text)), Said::Report(bytes)) => text.as_slice() == bytes,
        (Some(Out::SwitchTo(n)), Said::To(m)) => *n == m,
        (Some(Out::SwitchLast), Said::Last) => true,
        (Some(Out::Lights(n)), Said::Lights(m)) => *n == m,
        (Some(Out::Bell), Said::Bell) => true,
        _ => false,
    }
}

// Whether the text has this side effect, and no other.
fn says(alloc: Global, case: &Case) -> Result<bool, NoMemory> {
    let (text, said) = *case;
    let mut emu = start(alloc, SIZE)?;
    let mut outs = Outs::new();
    if text.len() > 64 {
        return Ok(false);
    }
    emu.feed(text, &mut outs);
    let heard = outs.as_slice();
    Ok(heard.len() <= 1 && is_said(heard.first(), said))
}

#[test]
fn texts_say(rt: HostRuntime) {
    for case in CASES {
        check_made(&rt, says(rt.alloc(), case), case.0);
    }
}

fn flags(state: &ScreenState) -> [bool; 7] {
    [
        state.cursor,
        state.reverse,
        state.autowrap,
        state.repeat,
        state.visible,
        state.keypad,
        state.pen.display,
    ]
}

fn sets(alloc: Global, case: &Setting) -> Result<bool, NoMemory> {
    let (text, wanted) = *case;
    let emu = written(alloc, SIZE, text)?;
    Ok(flags(emu.state()) == wanted)
}

#[test]
fn texts_set(rt: HostRuntime) {
    for case in SETTINGS {
        check_made(&rt, sets(rt.alloc(), case), case.0);
    }
}

// Whether there are tab stops in these columns, and in none of the others.
fn has_stops(state: &ScreenState, columns: &[u8], others: &[u8]) -> bool {
    for x in columns {
        if !state.stops.has(*x) {
            return false;
        }
    }
    for x in others {
        if state.stops.has(*x) {
            return false;
        }
    }
    true
}

// A text after those above it, and then columns that have tab stops and columns that have none, the tables that
// are G0 and G1 and which of them is in use, and the second colour of the palette.
type Kept = (
    &'static [u8],
    &'static [u8],
    &'static [u8],
    (u8, u8, u8),
    (u8, u8, u8),
);

const KEPT: &[Kept] = &[
    (
        b"\x1B[1;5H\x1BH\x1B(0\x1B)U\x0E\x1B7\x1B(B\x1B)B\x0F\x1B]P1A0b0C0",
        &[4, 8, 248],
        &[0, 5, 255],
        (0, 0, 0),
        (0xA0, 0xB0, 0xC0),
    ),
    (b"\x1B8", &[4, 8], &[0, 5], (1, 2, 1), (0xA0, 0xB0, 0xC0)),
    (b"\x1Bc", &[8], &[4], (0, 1, 0), (0xA0, 0xB0, 0xC0)),
    (b"\x1B]R\x1B[3g", &[], &[8], (0, 1, 0), (0xAA, 0, 0)),
];

fn is_kept(state: &ScreenState, case: &Kept) -> bool {
    let (_text, columns, others, tables, colour) = *case;
    has_stops(state, columns, others)
        && (state.g0, state.g1, state.shift) == tables
        && state.palette.get(1) == colour
}

fn are_kept(alloc: Global) -> Result<bool, NoMemory> {
    let mut emu = start(alloc, SIZE)?;
    for case in KEPT {
        emu.write(case.0);
        if !is_kept(emu.state(), case) {
            return Ok(false);
        }
    }
    emu.palette_mut().set(2, (1, 2, 3));
    Ok(emu.state().palette.get(2) == (1, 2, 3))
}

#[test]
fn stops_tables_and_colours_are_kept(rt: HostRuntime) {
    check_made(&rt, are_kept(rt.alloc()), "stops, tables and colours");
}
