//! Escape and control sequences that are read at once, up to 256 bytes, and texts that are not.
use super::UTF8;
use super::checks::check;
use std::process::Abort;
use vt_units::WholeSequence::{Csi, Esc, Nothing};
use vt_units::{Mode, Params, Pending, Then, WholeSequence};

const BYTES: Mode = Mode {
    utf8: false,
    display: true,
};

// A text, and the control sequence that is read of it at once: whether `?` begins its parameters, its
// last byte, how many bytes it has, and the parameters.
type Control = (&'static [u8], bool, u8, usize, &'static [u16]);

const CONTROLS: &[Control] = &[
    (b"\x1B[m", false, b'm', 3, &[0]),
    (b"\x1B[1;31mx", false, b'm', 7, &[1, 31]),
    (b"\x1B[;H", false, b'H', 4, &[0, 0]),
    (b"\x1B[?25l", true, b'l', 6, &[25]),
    (b"\x1B[99999A", false, b'A', 8, &[65_535]),
    (
        b"\x1B[1;1;1;1;1;1;1;1;1;1;1;1;1;1;1;1;31m",
        false,
        b'm',
        37,
        &[1, 1, 1, 1, 1, 1, 1, 1, 1, 1, 1, 1, 1, 1, 1, 1],
    ),
    // three parameters and more, of one to five digits, and empty ones
    (b"\x1B[38;5;196mx", false, b'm', 11, &[38, 5, 196]),
    (
        b"\x1B[1;22;333;4444;55555m",
        false,
        b'm',
        22,
        &[1, 22, 333, 4444, 55_555],
    ),
    (b"\x1B[;;m", false, b'm', 5, &[0, 0, 0]),
    (b"\x1B[1;;3;m", false, b'm', 8, &[1, 0, 3, 0]),
    (b"\x1B[007;0008;09;1m", false, b'm', 16, &[7, 8, 9, 1]),
    (b"\x1B[?1;5;25h", true, b'h', 10, &[1, 5, 25]),
];

// A text, and the escape sequence that is read of it at once: its intermediate byte or 0, its last byte, and
// how many bytes it has.
type Escape = (&'static [u8], u8, u8, usize);

const ESCAPES: &[Escape] = &[(b"\x1B(0q", b'(', b'0', 3), (b"\x1BMq", 0, b'M', 2)];

// Texts of which no sequence is read at once.
const NOTHINGS: &[&[u8]] = &[
    b"",
    b"a\x1B[m",
    b"\x1B",
    b"\x1B(",
    b"\x1B[",
    b"\x1B[?",
    b"\x1B[1;3",
    b"\x1B[38;5;1",
    b"\x1B[38;5;196;",
    b"\x1B[\x083C",
    b"\x1B[3\x7F1m",
    b"\x1B[3\x1B[4m",
    b"\x1B[38;5;1\x0896m",
    b"\x1B[[A",
    b"\x1B[>c",
    b"\x1B[1 q",
    b"\x1B]R",
    b"\x1BPa\x1B\\",
    b"\x9B4m",
];

// Whether this is read of the text at once, and these parameters with it.
fn is_taken(mode: Mode, text: &[u8], ahead: WholeSequence, numbers: &[u16]) -> bool {
    let mut pending = Pending::new();
    let mut params = Params::new();
    params.push(7);
    pending.take_sequence(mode, text, &mut params) == ahead && params.as_slice() == numbers
}

fn is_control(mode: Mode, case: &Control) -> bool {
    let (text, private, last, count, numbers) = *case;
    let ahead = Csi {
        private,
        last,
        count,
    };
    is_taken(mode, text, ahead, numbers)
}

fn is_escape(mode: Mode, case: &Escape) -> bool {
    let (text, mid, last, count) = *case;
    is_taken(mode, text, Esc { mid, last, count }, &[])
}

fn check_all(by: &impl Abort, mode: Mode) {
    for case in CONTROLS {
        check(by, is_control(mode, case), case.0);
    }
    for case in ESCAPES {
        check(by, is_escape(mode, case), case.0);
    }
    for text in NOTHINGS {
        check(by, is_taken(mode, text, Nothing, &[]), text);
    }
}

#[test]
fn takes_whole_sequences(rt: HostRuntime) {
    check_all(&rt, UTF8);
    check_all(&rt, BYTES);
}

// Whether this is read at once of a sequence whose last byte is at this place.
fn is_taken_of_zeros(place: usize, ahead: WholeSequence, numbers: &[u16]) -> bool {
    let mut text = [b'0'; 257];
    text[0] = 0x1B;
    text[1] = b'[';
    if place < 257 {
        text[place] = b'A';
    }
    is_taken(UTF8, &text, ahead, numbers)
}

#[test]
fn takes_sequences_of_256_bytes(rt: HostRuntime) {
    let whole = Csi {
        private: false,
        last: b'A',
        count: 256,
    };
    check(&rt, is_taken_of_zeros(255, whole, &[0]), "256 bytes");
    check(&rt, is_taken_of_zeros(256, Nothing, &[]), "257 bytes");
}

// Whether ESC [ m is read at once.
fn takes_reset(pending: &mut Pending) -> bool {
    let mut params = Params::default();
    let ahead = pending.take_sequence(UTF8, b"\x1B[m", &mut params);
    matches!(
        ahead,
        Csi {
            last: b'm',
            count: 3,
            ..
        }
    )
}

// Whether nothing is read at once of it.
fn takes_nothing(pending: &mut Pending) -> bool {
    let mut params = Params::default();
    matches!(pending.take_sequence(UTF8, b"\x1B[m", &mut params), Nothing)
}

// Whether the byte ends a unit.
fn ends(pending: &mut Pending, b: u8) -> bool {
    matches!(pending.take(UTF8, b).got, Then::Unit(_))
}

#[test]
fn takes_no_sequence_behind_a_text(rt: HostRuntime) {
    let mut pending = Pending::default();
    check(&rt, pending.is_empty(), "at the start");
    check(&rt, !ends(&mut pending, 0x1B), "ESC");
    check(&rt, !pending.is_empty(), "behind ESC");
    check(&rt, takes_nothing(&mut pending), "ESC [ m behind ESC");
    check(&rt, ends(&mut pending, b'c'), "ESC c");
    check(&rt, takes_reset(&mut pending), "ESC [ m");
}
