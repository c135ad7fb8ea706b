//! Texts with the units that they are read as, byte by byte: characters, controls, sequences and strings.
use super::UTF8;
use super::checks::check;
use Told::{
    Act, Bad, Byte, Char, Colour, ColourReset, Control, Csi, Dropped, Esc, Ignored, Private,
};
use vt_units::{Codes, Mode, Pending, Then, Unit};

// The result of a byte. A control sequence is given by its parameters and its last byte.
#[derive(Clone, Copy)]
enum Told {
    Bad,
    Char(u32),
    Byte(u8),
    Control(u8),
    Esc(u8, u8),
    Csi(&'static [u16], u8),
    Private(&'static [u16], u8),
    Colour(u8, u8, u8, u8),
    ColourReset,
    Ignored,
    Act(u8),
    Dropped,
}

// How a text is read, the text, and the results of its bytes, except those that have none yet.
type Case = (Mode, &'static [u8], &'static [Told]);

const BYTES: Mode = Mode {
    utf8: false,
    display: false,
};

const SHOWN: Mode = Mode {
    utf8: true,
    display: true,
};

fn is_unit(unit: &Unit, told: &Told) -> bool {
    match (unit, told) {
        (Unit::Char(code), Char(wanted)) => code == wanted,
        (Unit::Byte(b), Byte(wanted)) => b == wanted,
        (Unit::Control(b), Control(wanted)) => b == wanted,
        (Unit::Esc { mid, last }, Esc(wanted_mid, wanted_last)) => {
            mid == wanted_mid && last == wanted_last
        }
        (
            Unit::Csi {
                private,
                params,
                last,
            },
            Csi(numbers, wanted),
        ) => { !*private && params.as_slice() == *numbers && last == wanted }
        (
            Unit::Csi {
                private,
                params,
                last,
            },
            Private(numbers, wanted),
        ) => { *private && params.as_slice() == *numbers && last == wanted }
        (Unit::Colour { n, rgb }, Colour(wanted, red, green, blue)) => {
            n == wanted && rgb.0 == *red && rgb.1 == *green && rgb.2 == *blue
        }
        (Unit::ColourReset, ColourReset) => true,
        (Unit::Ignored, Ignored) => true,
        _ => false,
    }
}

fn is_told(then: &Then, told: &Told) -> bool {
    match (then, told) {
        (Then::Unit(unit), _) => is_unit(unit, told),
        (Then::Act(b), Act(wanted)) => b == wanted,
        (Then::Dropped, Dropped) => true,
        _ => false,
    }
}

// Whether the result of the byte is the next one that is wanted.
fn is_next(then: &Then, wanted: Option<&Told>) -> bool {
    match wanted {
        Some(told) => is_told(then, told),
        None => false,
    }
}

fn is_read(case: &Case) -> bool {
    let (mode, text, told) = *case;
    let mut pending = Pending::new();
    let mut wanted = told.iter();
    for b in text {
        let read = pending.take(mode, *b);
        if read.bad && !matches!(wanted.next(), Some(Bad)) {
            return false;
        }
        if !matches!(read.got, Then::More) && !is_next(&read.got, wanted.next()) {
            return false;
        }
    }
    wanted.next().is_none()
}

const CHARACTERS: &[Case] = &[
    (UTF8, b"\xC3\x28", &[Bad, Char(0x28)]),
    (UTF8, b"\xC3\n", &[Bad, Control(0x0A)]),
    (UTF8, b"\xE2\xFF", &[Bad, Char(0xFFFD)]),
    (UTF8, b"\xE2\x94\x80\x7F", &[Char(0x2500), Ignored]),
    (UTF8, b"\xC2\x85\xC2\xA0", &[Ignored, Char(0xA0)]),
    (UTF8, b"\xC2\x9B3m", &[Csi(&[3], b'm')]),
    (UTF8, b"\x9B3", &[Char(0xFFFD), Char(0x33)]),
    (UTF8, b"\xE1\x1B[m", &[Bad, Csi(&[0], b'm')]),
    (
        BYTES,
        b"A\xFF\x7F\x01",
        &[Byte(0x41), Byte(0xFF), Ignored, Control(1)],
    ),
    (BYTES, b"\x9B?25h", &[Private(&[25], b'h')]),
    (
        SHOWN,
        b"q\x01\x7F\x08",
        &[Byte(0x71), Byte(1), Byte(0x7F), Control(8)],
    ),
    (SHOWN, b"\xC3\x9B4m", &[Byte(0xC3), Csi(&[4], b'm')]),
];

#[test]
fn reads_characters(rt: HostRuntime) {
    for case in CHARACTERS {
        check(&rt, is_read(case), case.1);
    }
}

const SEQUENCES: &[Case] = &[
    (UTF8, b"\x1B[2;2HX", &[Csi(&[2, 2], b'H'), Char(0x58)]),
    (UTF8, b"\x1B[\x083C", &[Act(8), Csi(&[3], b'C')]),
    (UTF8, b"\x1B[3\x7F1m", &[Csi(&[31], b'm')]),
    (UTF8, b"\x1B[;70000m", &[Csi(&[0, 65_535], b'm')]),
    (
        UTF8,
        b"\x1B[1;1;1;1;1;1;1;1;1;1;1;1;1;1;1;1;31m",
        &[Csi(&[1, 1, 1, 1, 1, 1, 1, 1, 1, 1, 1, 1, 1, 1, 1, 1], b'm')],
    ),
    (UTF8, b"\x1B[>c\x1B[1 q", &[Ignored, Ignored]),
    (UTF8, b"\x1B[[AB", &[Ignored, Char(0x42)]),
    (UTF8, b"\x1B[3\x18A", &[Dropped, Char(0x41)]),
    (UTF8, b"\x1B[3\x9BA", &[Dropped, Char(0x41)]),
    (BYTES, b"\x1B[3\x9B4m", &[Csi(&[4], b'm')]),
    (UTF8, b"\x1B[3\x1B[4m", &[Csi(&[4], b'm')]),
    (
        UTF8,
        b"\x1BD\x1B(0\x1B  F",
        &[Esc(0, b'D'), Esc(b'(', b'0'), Ignored],
    ),
    (
        UTF8,
        b"\x1B]P1aF0c33\x1B]R",
        &[Colour(1, 0xAF, 0x0C, 0x33), ColourReset],
    ),
    (UTF8, b"\x1B]P1g\x1B]\x7F", &[Dropped, Dropped]),
    (UTF8, b"\x1B]\x070;t\x07", &[Act(7), Ignored]),
    (UTF8, b"\x1B]0;t\x07ok", &[Ignored, Char(0x6F), Char(0x6B)]),
    (UTF8, b"\x1BPa\n\x1B\\\x1B_\x18", &[Ignored, Ignored]),
    (UTF8, b"\x1B^a\x1B\x7F[4m", &[Csi(&[4], b'm')]),
    (UTF8, b"\x1BXa\x1B\x07\x18", &[Act(7), Dropped]),
];

#[test]
fn reads_sequences(rt: HostRuntime) {
    for case in SEQUENCES {
        check(&rt, is_read(case), case.1);
    }
}

// Whether the byte has this result.
fn comes_to(pending: &mut Pending, b: u8, told: Told) -> bool {
    is_told(&pending.take(UTF8, b).got, &told)
}

// How many of these bytes have no result yet, after ESC and one byte more.
fn swallowed(pending: &mut Pending, opening: u8, b: u8, count: u32) -> u32 {
    let _ = pending.take(UTF8, 0x1B);
    let _ = pending.take(UTF8, opening);
    let mut quiet = 0;
    for _ in 0..count {
        if matches!(pending.take(UTF8, b).got, Then::More) && quiet < 2_000_000 {
            quiet += 1;
        }
    }
    quiet
}

// A byte after ESC, a byte that comes so many times after it and has no result yet, and then bytes and their
// results.
type Long = (u8, u8, u32, &'static [(u8, Told)]);

const LONG: &[Long] = &[
    // 256 bytes
    (b'[', b'0', 253, &[(b'A', Csi(&[0], b'A'))]),
    // 257 bytes: a control character isn't counted
    (
        b'[',
        b'0',
        254,
        &[(0x08, Act(8)), (b'0', Dropped), (b'A', Char(0x41))],
    ),
    // a string of any length
    (b'P', b'x', 1_000_000, &[(0x07, Ignored)]),
];

fn are_swallowed(pending: &mut Pending, case: &Long) -> bool {
    let (opening, b, count, behind) = *case;
    if swallowed(pending, opening, b, count) != count {
        return false;
    }
    for (b, told) in behind {
        if !comes_to(pending, *b, *told) {
            return false;
        }
    }
    true
}

#[test]
fn ends_long_texts(rt: HostRuntime) {
    let mut pending = Pending::new();
    for case in LONG {
        check(&rt, are_swallowed(&mut pending, case), &[case.0, case.1]);
    }
}

// Whether so many of the bytes are taken at once.
fn takes(pending: &mut Pending, mode: Mode, text: &[u8], count: usize) -> bool {
    pending.take_printable(mode, text) == count
}

#[test]
fn takes_printables(rt: HostRuntime) {
    let mut pending = Pending::default();
    check(&rt, takes(&mut pending, UTF8, b"ab ~\x1Bc", 4), "up to ESC");
    check(
        &rt,
        takes(&mut pending, BYTES, b"ab", 0),
        "bytes have their tables",
    );
    let _ = pending.take(UTF8, 0x1B);
    check(&rt, takes(&mut pending, UTF8, b"ab", 0), "behind ESC");
    check(&rt, comes_to(&mut pending, b'c', Esc(0, b'c')), "ESC c");
    check(
        &rt,
        takes(&mut pending, UTF8, b"ab\n", 2),
        "behind the sequence",
    );
}

// A mode, a control character or another byte, and whether it is taken at once.
const CONTROLS: &[(Mode, u8, bool)] = &[
    (UTF8, b'\n', true),
    (BYTES, 0x07, true),
    (UTF8, 0x1B, false),
    (UTF8, b'a', false),
    (SHOWN, b'\n', true),
    (SHOWN, 0x07, false),
];

#[test]
fn takes_controls(rt: HostRuntime) {
    let mut pending = Pending::new();
    for (mode, b, is_taken) in CONTROLS {
        check(&rt, pending.take_control(*mode, *b) == *is_taken, &[*b]);
    }
    let _ = pending.take(UTF8, 0x1B);
    check(&rt, !pending.take_control(UTF8, b'\n'), "behind ESC");
}

// A text, how many characters are wanted, the bytes that are taken, and the characters.
type Run = (&'static [u8], usize, usize, &'static [u32]);

const RUNS: &[Run] = &[
    (b"", 64, 0, &[]),
    (
        b"\xC3\xA9a\xE2\x82\xAC\xF0\x9F\x98\x80\n",
        64,
        10,
        &[0xE9, 0x61, 0x20AC, 0x1F600],
    ),
    (b"\xC3\xA9a\xE2\x82\xAC", 2, 3, &[0xE9, 0x61]),
    (b"\xC3\xA9\xE2\x82", 64, 2, &[0xE9]),
    (b"\xC3\xA9\xE2\x82A", 64, 2, &[0xE9]),
    (b"\xE0\xA0\x80\xEF\xBF\xBD", 64, 6, &[0x800, 0xFFFD]),
    (b"\xC3\xA9\xC2\x9B", 64, 2, &[0xE9]),
    (b"\xC2\xA0\xC2\x85", 64, 2, &[0xA0]),
    (b"a\xED\xA0\x80", 64, 1, &[0x61]),
    (b"\x1B[", 64, 0, &[]),
];

fn is_taken(case: &Run) -> bool {
    let (text, most, count, characters) = *case;
    let mut pending = Pending::new();
    let mut codes = Codes::new();
    let taken = pending.take_characters(UTF8, text, most.min(64), &mut codes);
    taken == count && codes.as_slice() == characters
}

#[test]
fn takes_characters(rt: HostRuntime) {
    for case in RUNS {
        check(&rt, is_taken(case), case.0);
    }
}

// Whether no character of the text is taken at once.
fn takes_none(pending: &mut Pending, mode: Mode) -> bool {
    let mut codes = Codes::new();
    pending.take_characters(mode, b"a", 64, &mut codes) == 0
}

#[test]
fn takes_no_character_of_bytes_or_a_sequence(rt: HostRuntime) {
    let mut pending = Pending::new();
    check(&rt, takes_none(&mut pending, BYTES), "bytes");
    let _ = pending.take(UTF8, 0x1B);
    check(&rt, takes_none(&mut pending, UTF8), "behind ESC");
}
