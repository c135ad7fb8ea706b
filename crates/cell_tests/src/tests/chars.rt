//! Bytes of UTF-8 with the answers of their reader, and bytes with their characters in the translation tables.
use super::checks::check;
use std::process::Abort;
use vt_chars::Got::{Bad, BadThen, Char, More};
use vt_chars::{
    CharMap, Decoded, Got, Utf8, decode, decode_four, decode_one, decode_three, decode_two,
};

// A text, and the answers to its bytes, one after another. A byte with the answer BadThen is pushed once more,
// and its second answer comes after the first.
type Case = (&'static [u8], &'static [Got]);

fn is_read(case: &Case) -> bool {
    let (text, answers) = *case;
    let mut utf8 = Utf8::new();
    let mut wanted = answers.iter();
    for b in text {
        let got = utf8.push(*b);
        if !is_next(wanted.next(), got) {
            return false;
        }
        if got == BadThen && !is_next(wanted.next(), utf8.push(*b)) {
            return false;
        }
    }
    wanted.next().is_none()
}

fn is_next(wanted: Option<&Got>, got: Got) -> bool {
    match wanted {
        Some(next) => *next == got,
        None => false,
    }
}

// The Unicode Standard, "Conversion Processes": the examples of maximal subparts, and a cut of one.
const SUBPARTS: &[Case] = &[
    (
        &[0xF0, 0x80, 0x80, 0x41],
        &[More, BadThen, Bad, Bad, Char(0x41)],
    ),
    (
        &[0xE1, 0x80, 0xE2, 0xF0, 0x91, 0x92, 0xF1, 0xBF, 0x41],
        &[
            More,
            More,
            BadThen,
            More,
            BadThen,
            More,
            More,
            More,
            BadThen,
            More,
            More,
            BadThen,
            Char(0x41),
        ],
    ),
    (&[0xC0, 0xAF], &[Bad, Bad]),
    (&[0xED, 0xA0, 0x80], &[More, BadThen, Bad, Bad]),
    (
        &[0xF4, 0x91, 0x92, 0x93, 0xFF],
        &[More, BadThen, Bad, Bad, Bad, Bad],
    ),
    (&[0xC3, 0x28], &[More, BadThen, Char(0x28)]),
];

// The first and last sequence of each row of Table 3-7, and the bytes next to them.
const RANGES: &[Case] = &[
    (&[0x00, 0x7F, 0x80, 0xBF], &[Char(0), Char(0x7F), Bad, Bad]),
    (&[0xC1, 0xC2, 0x80], &[Bad, More, Char(0x80)]),
    (
        &[0xDF, 0xBF, 0xDF, 0xC0],
        &[More, Char(0x7FF), More, BadThen, Bad],
    ),
    (&[0xC2, 0x7F], &[More, BadThen, Char(0x7F)]),
    (&[0xE0, 0xA0, 0x80], &[More, More, Char(0x800)]),
    (&[0xE0, 0xBF, 0xBF], &[More, More, Char(0xFFF)]),
    (&[0xE0, 0x9F, 0x80], &[More, BadThen, Bad, Bad]),
    (&[0xE0, 0xC0], &[More, BadThen, Bad]),
    (&[0xE1, 0x80, 0x80], &[More, More, Char(0x1000)]),
    (&[0xEC, 0xBF, 0xBF], &[More, More, Char(0xCFFF)]),
    (&[0xE1, 0x80, 0x7F], &[More, More, BadThen, Char(0x7F)]),
    (&[0xE1, 0x80, 0xC0], &[More, More, BadThen, Bad]),
    (&[0xED, 0x80, 0x80], &[More, More, Char(0xD000)]),
    (&[0xED, 0x9F, 0xBF], &[More, More, Char(0xD7FF)]),
    (&[0xEE, 0x80, 0x80], &[More, More, Char(0xE000)]),
    (&[0xEF, 0xBF, 0xBF], &[More, More, Char(0xFFFF)]),
    (
        &[0xF0, 0x90, 0x80, 0x80],
        &[More, More, More, Char(0x10000)],
    ),
    (
        &[0xF0, 0xBF, 0xBF, 0xBF],
        &[More, More, More, Char(0x3FFFF)],
    ),
    (&[0xF0, 0x8F], &[More, BadThen, Bad]),
    (
        &[0xF1, 0x80, 0x80, 0x80],
        &[More, More, More, Char(0x40000)],
    ),
    (
        &[0xF3, 0xBF, 0xBF, 0xBF],
        &[More, More, More, Char(0xFFFFF)],
    ),
    (&[0xF1, 0x80, 0x80, 0xC0], &[More, More, More, BadThen, Bad]),
    (
        &[0xF4, 0x80, 0x80, 0x80],
        &[More, More, More, Char(0x100000)],
    ),
    (
        &[0xF4, 0x8F, 0xBF, 0xBF],
        &[More, More, More, Char(0x10FFFF)],
    ),
    (&[0xF4, 0x90], &[More, BadThen, Bad]),
    (&[0xF5, 0xFF], &[Bad, Bad]),
];

fn check_read(by: &impl Abort, cases: &[Case]) {
    for case in cases {
        check(by, is_read(case), case.0);
    }
}

#[test]
fn reads_maximal_subparts(rt: HostRuntime) {
    check_read(&rt, SUBPARTS);
    check_read(&rt, RANGES);
}

// A table, a byte, and the character that stands for it.
type Mapped = (u8, u8, u32);

const MAPPED: &[Mapped] = &[
    // Latin-1
    (0, b'q', 0x71),
    // a horizontal line
    (1, b'q', 0x2500),
    // outside the graphics, and after them
    (1, b'A', 0x41),
    (1, 0x7F, 0x7F),
    // the null mapping
    (2, b'q', 0xF071),
    // the user's table at the start
    (3, 0xFF, 0xF0FF),
];

// The same tables, if the user's table has one character for every byte.
const MAPPED_BY_USER: &[Mapped] = &[(3, 0xFF, 0x263A), (2, 0xFF, 0xF0FF)];

fn is_mapped(map: &CharMap, case: &Mapped) -> bool {
    let (table, b, code) = *case;
    table < 4 && map.map(table, b) == code
}

fn users_map() -> CharMap {
    let mut map = CharMap::start();
    map.set_user(&[0x263A; 256]);
    map
}

fn check_mapped(by: &impl Abort, map: &CharMap, cases: &[Mapped]) {
    for case in cases {
        check(by, is_mapped(map, case), case.2);
    }
}

#[test]
fn maps_bytes(rt: HostRuntime) {
    check_mapped(&rt, &CharMap::start(), MAPPED);
    check_mapped(&rt, &users_map(), MAPPED_BY_USER);
}

fn is_character(decoded: Decoded, code: u32) -> bool {
    decoded == Decoded::Character(code)
}

#[test]
fn decodes_characters(rt: HostRuntime) {
    let line = decode(&[0xE2, 0x94], 0x80);
    check(&rt, is_character(line, 0x2500), 0x2500);
    check(&rt, is_character(decode_one(0x7E), 0x7E), 0x7E);
    check(&rt, is_character(decode_two(0xC3, 0xA9), 0xE9), 0xE9);
    let line = decode_three(0xE2, 0x94, 0x80);
    check(&rt, is_character(line, 0x2500), 0x2500);
    let face = decode_four(0xF0, 0x9F, 0x98, 0x80);
    check(&rt, is_character(face, 0x1F600), 0x1F600);
}
