//! Pairs, words and colours as the bytes of calls.
use super::checks::{check, check_made};
use call_bytes::{add_colours, add_pairs, add_words, read_colours, read_pairs, read_words};
use key_syms::Pair;
use std::alloc::Global;
use vt_base::{Bytes, NoMemory};
use vt_cells::Palette;

// The grave accent and A give U+00C0; U+2126 and the last number give the first.
const PAIR_BYTES: [u8; 24] = [
    0x60, 0, 0, 0, 0x41, 0, 0, 0, 0xC0, 0, 0, 0, 0x26, 0x21, 0, 0, 0xFF, 0xFF, 0, 0, 0, 0, 0, 0,
];

const PAIRS: [Pair; 2] = [
    Pair {
        accent: 0x60,
        base: 0x41,
        result: 0xC0,
    },
    Pair {
        accent: 0x2126,
        base: 0xFFFF,
        result: 0,
    },
];

fn gives_pairs(alloc: Global) -> Result<bool, NoMemory> {
    let mut out = Bytes::with_room(alloc, 24)?;
    add_pairs(&PAIRS, &mut out);
    Ok(out.as_slice() == PAIR_BYTES.as_slice())
}

fn are_pairs(bytes: &[u8], pairs: &[Pair]) -> bool {
    match read_pairs(bytes) {
        Some(read) => read.as_slice() == pairs,
        None => false,
    }
}

// Whether a pair is read from bytes that are zero except a 1 at this place.
fn is_read(place: usize) -> bool {
    let mut bytes = [0; 12];
    bytes[place.min(11)] = 1;
    read_pairs(&bytes).is_some()
}

// Whether no pair is read of so many of the bytes.
fn is_none_read(len: usize) -> bool {
    read_pairs(&PAIR_BYTES[..len.min(24)]).is_none()
}

// Numbers of bytes that are no pairs.
const NO_PAIRS: &[(usize, &str)] = &[(11, "11 bytes"), (13, "13 bytes"), (23, "23 bytes")];

#[test]
fn pairs_are_twelve_bytes(rt: HostRuntime) {
    check_made(&rt, gives_pairs(rt.alloc()), "two pairs are given");
    check(&rt, are_pairs(&PAIR_BYTES, &PAIRS), "two pairs are read");
    check(&rt, are_pairs(&[], &[]), "no pair is read");
    check(&rt, read_pairs(&[0; 3_072]).is_some(), "256 pairs");
    check(&rt, read_pairs(&[0; 3_084]).is_none(), "257 pairs");
    for (len, what) in NO_PAIRS {
        check(&rt, is_none_read(*len), *what);
    }
    // The upper two bytes of each number of 32 bits are zero.
    for place in 0..12u32 {
        check(&rt, is_read(place as usize) == (place % 4 < 2), place);
    }
}

fn words() -> [u16; 256] {
    let mut words = [0; 256];
    words[0] = 0xF041;
    words[255] = 0x00B7;
    words
}

fn word_bytes() -> [u8; 512] {
    let mut bytes = [0; 512];
    bytes[0] = 0x41;
    bytes[1] = 0xF0;
    bytes[510] = 0xB7;
    bytes
}

fn gives_words(alloc: Global) -> Result<bool, NoMemory> {
    let mut out = Bytes::with_room(alloc, 512)?;
    add_words(&words(), &mut out);
    Ok(out.as_slice() == word_bytes().as_slice())
}

fn are_words(bytes: &[u8], words: &[u16]) -> bool {
    match read_words(bytes) {
        Some(read) => read.as_slice() == words,
        None => false,
    }
}

#[test]
fn words_are_two_bytes(rt: HostRuntime) {
    check_made(&rt, gives_words(rt.alloc()), "a table is given");
    check(&rt, are_words(&word_bytes(), &words()), "a table is read");
    check(&rt, read_words(&[0; 510]).is_none(), "255 words");
    check(&rt, read_words(&[]).is_none(), "no word");
}

// The start palette: red 1, green 2, blue 4, and bright from 8 on.
const COLOUR_BYTES: [u8; 48] = [
    0, 0, 0, 0xAA, 0, 0, 0, 0xAA, 0, 0xAA, 0xAA, 0, 0, 0, 0xAA, 0xAA, 0, 0xAA, 0, 0xAA, 0xAA, 0xAA,
    0xAA, 0xAA, 0x55, 0x55, 0x55, 0xFF, 0x55, 0x55, 0x55, 0xFF, 0x55, 0xFF, 0xFF, 0x55, 0x55, 0x55,
    0xFF, 0xFF, 0x55, 0xFF, 0x55, 0xFF, 0xFF, 0xFF, 0xFF, 0xFF,
];

fn gives_colours(alloc: Global) -> Result<bool, NoMemory> {
    let mut out = Bytes::with_room(alloc, 48)?;
    add_colours(&Palette::start(), &mut out);
    Ok(out.as_slice() == COLOUR_BYTES.as_slice())
}

fn reads_colours() -> bool {
    match read_colours(&COLOUR_BYTES) {
        Some(palette) => palette.get(1) == (0xAA, 0, 0) && palette.get(15) == (0xFF, 0xFF, 0xFF),
        None => false,
    }
}

#[test]
fn colours_are_three_bytes(rt: HostRuntime) {
    check_made(&rt, gives_colours(rt.alloc()), "a palette is given");
    check(&rt, reads_colours(), "a palette is read");
    check(&rt, read_colours(&COLOUR_BYTES[..47]).is_none(), "a part");
    check(&rt, read_colours(&[]).is_none(), "no colour");
}
