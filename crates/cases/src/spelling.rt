//! Bytes as a person can write and read them: `\n`, `\\`, and `\xHH` for bytes that aren't printable ASCII.
use crate::line::times_of;
use itoa::Buffer;
use std::alloc::{AllocError, Global};

/// The number of equal lines from which on they are printed as one.
const MANY: u64 = 10;

/// How many pieces a block has.
const BLOCK: u64 = 4_096;

const DIGITS: &[u8; 16] = b"0123456789ABCDEF";

/// Adds the bytes that the text spells.
pub(crate) fn add_bytes(text: &str, bytes: &mut Vec<u8>) -> Result<(), AllocError> {
    let mut rest = text.as_bytes();
    for _ in 0..text.len() {
        let Some((byte, left)) = first_of(rest) else {
            break;
        };
        bytes.push(byte)?;
        rest = left;
    }
    Ok(())
}

/// Adds the bytes that the text spells, so many times.
pub(crate) fn add_repeated(
    alloc: Global,
    times: u64,
    text: &str,
    bytes: &mut Vec<u8>,
) -> Result<(), AllocError> {
    let mut piece = Vec::new(alloc);
    add_bytes(text, &mut piece)?;
    add_pieces(alloc, times, piece.as_slice(), bytes)
}

// Adds the piece so many times, in blocks, so that a long text takes few steps.
fn add_pieces(
    alloc: Global,
    times: u64,
    piece: &[u8],
    bytes: &mut Vec<u8>,
) -> Result<(), AllocError> {
    let mut block = Vec::new(alloc);
    put_times(&mut block, piece, times.min(BLOCK))?;
    put_times(bytes, block.as_slice(), times / BLOCK)?;
    put_times(bytes, piece, times % BLOCK)
}

fn put_times(bytes: &mut Vec<u8>, piece: &[u8], times: u64) -> Result<(), AllocError> {
    for _ in 0..times {
        bytes.extend_from_slice(piece)?;
    }
    Ok(())
}

/// Adds the words of a call, in which `*N TEXT` at their end stands for the bytes that TEXT spells, so many
/// times.
pub(crate) fn add_words(alloc: Global, words: &str, bytes: &mut Vec<u8>) -> Result<(), AllocError> {
    if let Some((first, last)) = words.split_once('*') {
        if let Some((times, text)) = times_of(last) {
            bytes.extend_from_slice(first.as_bytes())?;
            return add_repeated(alloc, times, text, bytes);
        }
    }
    bytes.extend_from_slice(words.as_bytes())
}

// The first byte that the text spells, and the text past it.
fn first_of(text: &[u8]) -> Option<(u8, &[u8])> {
    match text {
        [] => None,
        [b'\\', b'n', rest @ ..] => Some((b'\n', rest)),
        [b'\\', b'x', high, low, rest @ ..] => {
            Some(((digit_of(*high) << 4) | digit_of(*low), rest))
        }
        [b'\\', byte, rest @ ..] => Some((*byte, rest)),
        [byte, rest @ ..] => Some((*byte, rest)),
    }
}

fn digit_of(byte: u8) -> u8 {
    match byte {
        b'0'..=b'9' => byte - b'0',
        b'A'..=b'F' => byte - b'A' + 10,
        _ => 0,
    }
}

/// Adds lines that spell the bytes: `|LINE` for a line of printable ASCII that ends in LF, `=` and its bytes,
/// spelled, for any other, and `*N` with its bytes, spelled, for many equal ones.
pub(crate) fn add_lines(bytes: &[u8], text: &mut Vec<u8>) -> Result<(), AllocError> {
    let mut line: &[u8] = &[];
    let mut times = 0;
    for next in bytes.split_inclusive(|b| *b == b'\n') {
        if next != line {
            add_equal(line, times, text)?;
            line = next;
            times = 0;
        }
        times = times.saturating_add(1);
    }
    add_equal(line, times, text)
}

fn add_equal(line: &[u8], times: u64, text: &mut Vec<u8>) -> Result<(), AllocError> {
    if times < MANY {
        for _ in 0..times {
            add_line(line, text)?;
        }
        return Ok(());
    }
    put(text, b"*")?;
    put_number(text, times)?;
    put(text, b" ")?;
    add_spelled(line, text)
}

fn add_line(line: &[u8], text: &mut Vec<u8>) -> Result<(), AllocError> {
    if let [shown @ .., b'\n'] = line {
        if shown.iter().all(|b| is_printable(*b)) {
            put(text, b"|")?;
            return put(text, line);
        }
    }
    put(text, b"=")?;
    add_spelled(line, text)
}

fn add_spelled(bytes: &[u8], text: &mut Vec<u8>) -> Result<(), AllocError> {
    for byte in bytes {
        match *byte {
            b'\n' => put(text, b"\\n")?,
            b'\\' => put(text, b"\\\\")?,
            byte if is_printable(byte) => put(text, &[byte])?,
            byte => put(text, &[b'\\', b'x', hex(byte >> 4), hex(byte)])?,
        }
    }
    put(text, b"\n")
}

// The digit of the low half.
fn hex(byte: u8) -> u8 {
    DIGITS[(byte & 15) as usize]
}

fn is_printable(byte: u8) -> bool {
    byte >= b' ' && byte <= b'~'
}

/// Adds the bytes unchanged.
pub(crate) fn put(text: &mut Vec<u8>, bytes: &[u8]) -> Result<(), AllocError> {
    text.extend_from_slice(bytes)
}

/// Adds the number in digits.
pub(crate) fn put_number(text: &mut Vec<u8>, n: u64) -> Result<(), AllocError> {
    let mut digits = Buffer::new();
    put(text, digits.format(n).as_bytes())
}
