//! The words of a row.
ghost use Rattle.std.specs.Prelude.{◌≡◌, ◌+◌, ◌<◌, ◌≤◌, ◌==◌, ◌&&◌, not, false, nat_lt, length, IfOk, IfSome};
ghost use Rattle.std.specs.List.{prefix_len};
ghost use Rattle.std.specs.Option.{option_map};
ghost use Rattle.std.specs.Str.Lossy.{utf8_valid_len};
ghost use Rattle.key_text.specs.Fault.{Gives, fault};
ghost use Rattle.key_text.specs.Rows.{backslash};
ghost use Rattle.key_text.specs.Words.{bytes, close_at, is_bare, is_blank, is_quote, is_word, next, nth_place, quoted_len, place_of_word, whole, word_at, word_len};

use crate::fault::{KeyError, KeyFault};
use crate::fault_kind::BAD_TEXT;
use crate::pieces::{rest_of, start_of};
use crate::placed::{Place, Placed};
use std::alloc::{AllocError, Global};

/// The bytes of a word, without their places.
pub(crate) fn bytes(alloc: Global, word: &[Placed]) -> Result<Vec<u8>, AllocError>
    ensures { IfOk result (λ v. v.items ≡ bytes word.now) }
{
    word.iter().map(|p| p.byte).collect(alloc)
}

/// The fault of this kind at a place.
pub(crate) fn fault(kind: u16, at: Place) -> KeyError
    ensures { result ≡ KeyError.Fault (fault kind at) }
{
    KeyError::Fault(KeyFault {
        kind,
        line: at.line,
        column: at.column,
    })
}

/// The place of a word.
pub(crate) fn place_of_word(word: &[Placed]) -> Place
    ensures { result ≡ place_of_word word.now }
{
    nth_place(word, 0)
}

fn nth_place(word: &[Placed], i: usize) -> Place
    ensures { result ≡ nth_place word.now i }
{
    match word.get(i) {
        Some(p) => Place {
            line: p.line,
            column: p.column,
        },
        None => Place { line: 0, column: 0 },
    }
}

/// The next word and the rest of the row, or the fault of this kind after the row's last byte.
#[tactic(auto, unfolding(crate::specs::Words::next))]
pub(crate) fn next(
    alloc: Global,
    kind: u16,
    end: Place,
    items: &[Placed],
) -> Result<(&[Placed], &[Placed]), KeyError>
    ensures { Gives (λ w. (w.0.now, w.1.now)) result (next kind end items.now) }
{
    match word_at(items) {
        Some((word, rest)) => check_utf8(alloc, word, rest),
        None => Err(fault(kind, end)),
    }
}

/// The next word and the rest of the row, whatever the word's bytes are.
#[tactic(auto, unfolding(crate::specs::Words::word_at), using(crate::proofs::Lengths::prefixes_end))]
pub(crate) fn word_at(items: &[Placed]) -> Option<(&[Placed], &[Placed])>
    ensures { option_map (λ w. (w.0.now, w.1.now)) result ≡ word_at items.now }
{
    let items = rest_of(items, blank_len(items));
    let len = word_len(items);
    if len == 0 {
        return None;
    }
    Some((start_of(items, len), rest_of(items, len)))
}

/// A word and the rest of the row, if the word's bytes are UTF-8.
#[tactic(auto, unfolding(crate::specs::Words::whole))]
pub(crate) fn check_utf8<'a>(
    alloc: Global,
    word: &'a [Placed],
    rest: &'a [Placed],
) -> Result<(&'a [Placed], &'a [Placed]), KeyError>
    ensures { Gives (λ w. (w.0.now, w.1.now)) result (whole (word.entry.now, rest.entry.now)) }
{
    let valid = valid_len(alloc, word)?;
    if valid == word.len() {
        return Ok((word, rest));
    }
    Err(fault(BAD_TEXT, nth_place(word, valid)))
}

// The number of a word's bytes up to the first that isn't UTF-8.
#[tactic(auto, using(crate::proofs::Lengths::whole_text, crate::proofs::Lengths::plain_text))]
fn valid_len(alloc: Global, word: &[Placed]) -> Result<usize, AllocError>
    ensures { IfOk result (λ n. n ≡ utf8_valid_len (bytes word.now)) }
{
    if plain_len(word) == word.len() {
        return Ok(word.len());
    }
    let text = bytes(alloc, word)?;
    match str::from_utf8(text.as_slice()) {
        Ok(text) => Ok(text.len()),
        Err(error) => Ok(error.valid_up_to()),
    }
}

fn plain_len(items: &[Placed]) -> usize
    ensures { result ≡ prefix_len (λ p. nat_lt p.byte 128) items.now }
{
    for i in 0..items.len() {
        if items[i].byte >= 128 {
            return i;
        }
    }
    items.len()
}

fn blank_len(items: &[Placed]) -> usize
    ensures { result ≡ prefix_len (λ p. is_blank p.byte) items.now }
{
    for i in 0..items.len() {
        if !is_blank(items[i].byte) {
            return i;
        }
    }
    items.len()
}

fn bare_len(items: &[Placed]) -> usize
    ensures value { result ≡ prefix_len (λ p. is_bare p.byte) items.now }
    ensures within { result ≤ length items.now }
{
    for i in 0..items.len() {
        if !is_bare(items[i].byte) {
            return i;
        }
    }
    items.len()
}

fn word_len(items: &[Placed]) -> usize
    ensures value { result ≡ word_len items.now }
    ensures within { result ≤ length items.now }
{
    let quoted = quoted_len(items);
    quoted + bare_len(rest_of(items, quoted))
}

fn quoted_len(items: &[Placed]) -> usize
    ensures value { result ≡ quoted_len items.now }
    ensures within { result ≤ length items.now }
{
    match items.split_first() {
        Some((first, rest)) if is_quote(first.byte) => match close_at(first.byte, rest) {
            Some(n) => n + 2,
            None => items.len(),
        },
        _ => 0,
    }
}

/// The number of bytes before the quote that closes a quoted text.
pub(crate) fn close_at(quote: u8, items: &[Placed]) -> Option<usize>
    ensures value { result ≡ close_at quote false items.now }
    ensures within { IfSome result (λ n. n < length items.now) }
{
    let mut escaped = false;
    for i in 0..items.len() {
        let b = items[i].byte;
        if closes(escaped, b, quote) {
            return Some(i);
        }
        escaped = begins_escape(escaped, b);
    }
    None
}

fn closes(escaped: bool, b: u8, quote: u8) -> bool
    ensures { result ≡ (not escaped && b == quote) }
{
    !escaped && b == quote
}

fn begins_escape(escaped: bool, b: u8) -> bool
    ensures { result ≡ (not escaped && b == backslash) }
{
    !escaped && b == b'\\'
}

fn is_blank(b: u8) -> bool
    ensures { result ≡ is_blank b }
{
    b == b' ' || b == b'\t'
}

fn is_bare(b: u8) -> bool
    ensures { result ≡ is_bare b }
{
    !(is_blank(b) || b == b'!' || b == b'#')
}

pub(crate) fn is_quote(b: u8) -> bool
    ensures { result ≡ is_quote b }
{
    b == b'"' || b == b'\''
}

/// Whether a word is this one, in any ASCII case.
pub(crate) fn is_word(text: &[u8], word: &[Placed]) -> bool
    ensures { result ≡ is_word text.now word.now }
{
    if word.len() != text.len() {
        return false;
    }
    for i in 0..text.len() {
        if !word[i].byte.eq_ignore_ascii_case(&text[i]) {
            return false;
        }
    }
    true
}
