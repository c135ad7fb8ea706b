//! Quoted texts and their escapes.
ghost use Rattle.std.specs.Prelude.{◌≡◌, ◌-◌, ◌≤◌, length, take, IfOk, IfSome};
ghost use Rattle.std.specs.List.{prefix_len};
ghost use Rattle.std.specs.Option.{option_map};
ghost use Rattle.key_text.specs.Quoted.{text_between, character_of, character_of_utf8, escape_in, first_of, is_octal, letter_escape, octal_escape, octal_len, octal_value, one_character, text_of, unescaped_whole};

use crate::pieces::{rest_of, start_of};
use crate::placed::Placed;
use crate::words::{bytes, close_at};
use std::alloc::{AllocError, Global};

// A byte that an escape stands for, and the number of bytes of the escape after its backslash.
#[derive(Clone, Copy)]
struct Escape {
    value: u8,
    len: usize,
}

/// The text that a word in double quotes stands for.
#[tactic(auto, unfolding(crate::specs::Quoted::text_of))]
pub(crate) fn text_of(alloc: Global, word: &[Placed]) -> Result<Option<Vec<u8>>, AllocError>
    ensures { IfOk result (λ text. option_map (λ v. v.items) text ≡ text_of word.now) }
{
    match text_between(alloc, b'"', word)? {
        Some(text) => unescaped_bytes(alloc, text.as_slice()),
        None => Ok(None),
    }
}

/// The character that a word in single quotes stands for.
#[tactic(auto, unfolding(crate::specs::Quoted::character_of))]
pub(crate) fn character_of(alloc: Global, word: &[Placed]) -> Result<Option<u32>, AllocError>
    ensures { IfOk result (λ code. code ≡ character_of word.now) }
{
    match text_between(alloc, b'\'', word)? {
        Some(text) => Ok(one_character(text.as_slice())),
        None => Ok(None),
    }
}

// The bytes between two quotes that are the first and the last byte of a word.
fn text_between(alloc: Global, quote: u8, word: &[Placed]) -> Result<Option<Vec<u8>>, AllocError>
    ensures { IfOk result (λ text. option_map (λ v. v.items) text ≡ text_between quote word.now) }
{
    match word.split_first() {
        Some((first, rest)) if first.byte == quote => match close_at(quote, rest) {
            Some(n) if n + 1 == rest.len() => {
                let mut text = bytes(alloc, rest)?;
                text.truncate(n);
                Ok(Some(text))
            }
            _ => Ok(None),
        },
        _ => Ok(None),
    }
}

// The bytes that a quoted text stands for.
fn unescaped_bytes(alloc: Global, text: &[u8]) -> Result<Option<Vec<u8>>, AllocError>
    ensures { IfOk result
        (λ bytes. option_map (λ v. v.items) bytes ≡ unescaped_whole text.now) }
{
    let mut bytes = Vec::new(alloc);
    let mut rest = text;
    for _turn in 0..text.len() {
        let (b, behind) = match rest.split_first() {
            Some((b, behind)) => (*b, behind),
            None => return Ok(Some(bytes)),
        };
        match first_of(b, behind) {
            Some((byte, left)) => {
                bytes.push(byte)?;
                rest = left;
                continue;
            }
            None => return Ok(None),
        }
    }
    Ok(Some(bytes))
}

// The byte that a quoted text begins with, and the rest of the text.
fn first_of(b: u8, behind: &[u8]) -> Option<(u8, &[u8])>
    ensures value { option_map (λ first. (first.0, first.1.now)) result ≡ first_of b behind.now }
    ensures within { IfSome result (λ first. length first.1.now ≤ length behind.now) }
{
    if b != b'\\' {
        return Some((b, behind));
    }
    let escape = escape_in(behind)?;
    Some((escape.value, rest_of(behind, escape.len)))
}

// The escape after a backslash.
#[tactic(auto, unfolding(crate::specs::Quoted::escape_in))]
fn escape_in(text: &[u8]) -> Option<Escape>
    ensures value { option_map (λ e. (e.value, e.len)) result ≡ escape_in text.now }
    ensures within { IfSome result (λ e. e.len ≤ length text.now) }
{
    let digits = octal_len(text);
    if digits == 0 {
        return letter_escape(text);
    }
    octal_escape(start_of(text, digits))
}

fn letter_escape(text: &[u8]) -> Option<Escape>
    ensures value { option_map (λ e. (e.value, e.len)) result ≡ letter_escape text.now }
    ensures within { IfSome result (λ e. e.len ≤ length text.now) }
{
    match text.first() {
        Some(b'n') => Some(Escape {
            value: b'\n',
            len: 1,
        }),
        Some(b) if *b == b'\\' || *b == b'"' || *b == b'\'' => Some(Escape { value: *b, len: 1 }),
        _ => None,
    }
}

fn octal_escape(digits: &[u8]) -> Option<Escape>
    requires { length digits.now ≤ 3 }
    ensures value { option_map (λ e. (e.value, e.len)) result ≡ octal_escape digits.now }
    ensures within { IfSome result (λ e. e.len ≤ length digits.now) }
{
    let value = octal_value(digits);
    if value <= 255 {
        return Some(Escape {
            value: value as u8,
            len: digits.len(),
        });
    }
    None
}

fn octal_value(digits: &[u8]) -> u32
    requires { length digits.now ≤ 3 }
    ensures { result ≡ octal_value digits.now }
{
    match digits {
        [a] => bits(*a, b'0'),
        [a, b] => bits(*a, b'0') * 8 + bits(*b, b'0'),
        [a, b, c] => (bits(*a, b'0') * 8 + bits(*b, b'0')) * 8 + bits(*c, b'0'),
        _ => 0,
    }
}

// The number of octal digits that the bytes begin with, three at most.
fn octal_len(text: &[u8]) -> usize
    ensures value { result ≡ octal_len text.now }
    ensures few { result ≤ 3 }
    ensures within { result ≤ length text.now }
{
    digits_len(first_three(text))
}

#[tactic(auto, using(std::proofs::lemmas::List::take_all))]
fn first_three(text: &[u8]) -> &[u8]
    ensures value { result.now ≡ take 3 text.now }
    ensures few { length result.now ≤ 3 }
    ensures within { length result.now ≤ length text.now }
{
    if text.len() <= 3 {
        text
    } else {
        start_of(text, 3)
    }
}

fn digits_len(text: &[u8]) -> usize
    ensures value { result ≡ prefix_len is_octal text.now }
    ensures within { result ≤ length text.now }
{
    for i in 0..text.len() {
        if !is_octal(text[i]) {
            return i;
        }
    }
    text.len()
}

fn is_octal(b: u8) -> bool
    ensures { result ≡ is_octal b }
{
    b'0' <= b && b <= b'7'
}

// The one character of a quoted text.
fn one_character(text: &[u8]) -> Option<u32>
    ensures { result ≡ one_character text.now }
{
    match text.split_first() {
        Some((b'\\', rest)) => {
            let escape = escape_in(rest)?;
            if escape.len == rest.len() {
                Some(u32::from(escape.value))
            } else {
                None
            }
        }
        Some(_) => character_of_utf8(text),
        None => None,
    }
}

// The character that one, two or three bytes of UTF-8 are.
fn character_of_utf8(text: &[u8]) -> Option<u32>
    ensures { result ≡ character_of_utf8 text.now }
{
    match text {
        [a] => Some(u32::from(*a)),
        [a, b] if *a >= 0xC0 => Some(bits(*a, 0xC0) * 64 + bits(*b, 0x80)),
        [a, b, c] if *a >= 0xE0 => {
            Some(bits(*a, 0xE0) * 4096 + bits(*b, 0x80) * 64 + bits(*c, 0x80))
        }
        _ => None,
    }
}

fn bits(b: u8, mark: u8) -> u32
    ensures value { result ≡ b - mark }
    ensures small { result ≤ 255 }
{
    u32::from(b.saturating_sub(mark))
}
