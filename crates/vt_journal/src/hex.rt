//! Bytes in hexadecimal.
ghost use Rattle.std.specs.Prelude.{◌≡◌, ◌<◌, ◌%◌, ◌^◌, length, [], ◌∷◌, option_map, IfOk, IfSome};
ghost use Rattle.std.specs.List.{All, flat_map};
ghost use Rattle.vt_base.specs.Bytes.{Adds};
ghost use Rattle.vt_base.specs.Digits.{hex_byte, hex_digit};
ghost use Rattle.vt_journal.specs.Hex.{hex_text};
ghost use Rattle.vt_journal.specs.Readers.{Finds};

use std::alloc::Global;
use vt_base::{Bytes, NoMemory};

/// Adds the bytes in hexadecimal: two lower-case digits for each, or `-` for none.
pub fn add_hex(alloc: Global, text: &mut Bytes, b: &[u8]) -> Result<(), NoMemory>
    ensures { Adds (hex_text b.now) text.old text.new result }
{
    if b.is_empty() {
        return text.add(alloc, b"-");
    }
    text.add_hex(alloc, b)
}

/// The bytes that the word spells in hexadecimal.
pub(crate) fn parse_hex(alloc: Global, word: &[u8]) -> Result<Option<Bytes>, NoMemory>
    ensures finds { IfOk result
        (λ found. Finds hex_text (All (λ x. x < 2 ^ 8)) word.now (option_map (λ b. b.bytes) found)) }
    ensures fit { IfOk result (λ found. IfSome found (λ b. All (λ x. x < 2 ^ 8) b.bytes)) }
    ensures room { IfOk result (λ found. IfSome found (λ b. b.room ≡ 0)) }
{
    if word == b"-".as_slice() {
        return Ok(Some(Bytes::new(alloc)));
    }
    if word.is_empty() {
        return Ok(None);
    }
    if word.len() % 2 != 0 {
        return Ok(None);
    }
    parse_pairs(alloc, word)
}

// The bytes that the digits spell.
fn parse_pairs(alloc: Global, word: &[u8]) -> Result<Option<Bytes>, NoMemory>
    requires some { 0 < length word.now }
    requires even { length word.now % 2 ≡ 0 }
    ensures finds { IfOk result (λ found. Finds (flat_map hex_byte) (All (λ x. x < 2 ^ 8)) word.now
        (option_map (λ b. b.bytes) found)) }
    ensures fit { IfOk result (λ found. IfSome found (λ b. All (λ x. x < 2 ^ 8) b.bytes)) }
    ensures room { IfOk result (λ found. IfSome found (λ b. b.room ≡ 0)) }
{
    let mut bytes = Bytes::with_room(alloc, word.len() / 2)?;
    for i in 0..word.len() / 2 {
        let Some(b) = byte(word[2 * i], word[2 * i + 1]) else {
            return Ok(None);
        };
        bytes.push(b);
    }
    Ok(Some(bytes))
}

// The byte of two digits.
fn byte(high: u8, low: u8) -> Option<u8>
    ensures { Finds hex_byte (λ b. b < 2 ^ 8) (high ∷ low ∷ []) result }
{
    Some(16 * value(high)? + value(low)?)
}

// The number of a digit.
fn value(digit: u8) -> Option<u8>
    ensures finds { Finds hex_digit (λ n. n < 16) digit result }
    ensures below { IfSome result (λ n. n < 16) }
{
    match digit {
        b'0'..=b'9' => Some(digit - b'0'),
        b'a'..=b'f' => Some(digit - b'a' + 10),
        _ => None,
    }
}
