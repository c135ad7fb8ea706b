//! Whole characters at the start of a text.
ghost use Rattle.std.specs.Prelude.{◌≡◌, ◌≤◌, ◌<◌, [], ◌∷◌, true, drop, length, take, IfNone, IfSome};
ghost use Rattle.vt_chars.specs.Utf8.{is_tail};
ghost use Rattle.vt_units.specs.Characters.{AreTextsOf, Begins, IsHidden, NoneBegins, is_common, is_shown};

use crate::codes::Codes;
use vt_chars::{Decoded, decode_four, decode_one, decode_three, decode_two};

// The sum of the bits that mark the bytes of a character of two bytes.
const TWO_MARKS: u32 = 0xC0 * 0x40 + 0x80;

// The sum of the bits that mark the bytes of a character of three bytes.
const THREE_MARKS: u32 = (0xE0 * 0x40 + 0x80) * 0x40 + 0x80;

const Y: bool = true;

const N: bool = false;

// For each byte, whether it is the first one of a shown character of two or three bytes, whatever
// continuation bytes follow. The comment after a row is its first byte.
#[rattlefmt::skip]
static COMMON: [bool; 256] = [
    N, N, N, N, N, N, N, N, N, N, N, N, N, N, N, N, // 00
    N, N, N, N, N, N, N, N, N, N, N, N, N, N, N, N, // 10
    N, N, N, N, N, N, N, N, N, N, N, N, N, N, N, N, // 20
    N, N, N, N, N, N, N, N, N, N, N, N, N, N, N, N, // 30
    N, N, N, N, N, N, N, N, N, N, N, N, N, N, N, N, // 40
    N, N, N, N, N, N, N, N, N, N, N, N, N, N, N, N, // 50
    N, N, N, N, N, N, N, N, N, N, N, N, N, N, N, N, // 60
    N, N, N, N, N, N, N, N, N, N, N, N, N, N, N, N, // 70
    N, N, N, N, N, N, N, N, N, N, N, N, N, N, N, N, // 80
    N, N, N, N, N, N, N, N, N, N, N, N, N, N, N, N, // 90
    N, N, N, N, N, N, N, N, N, N, N, N, N, N, N, N, // A0
    N, N, N, N, N, N, N, N, N, N, N, N, N, N, N, N, // B0
    N, N, N, Y, Y, Y, Y, Y, Y, Y, Y, Y, Y, Y, Y, Y, // C0
    Y, Y, Y, Y, Y, Y, Y, Y, Y, Y, Y, Y, Y, Y, Y, Y, // D0
    N, Y, Y, Y, Y, Y, Y, Y, Y, Y, Y, Y, Y, N, Y, Y, // E0
    N, N, N, N, N, N, N, N, N, N, N, N, N, N, N, N, // F0
];

/// Reads the whole shown characters that the text begins with, at most `most`, and returns the number of
/// their bytes.
pub(crate) fn read_characters(b: &[u8], most: usize, codes: &mut Codes) -> usize
    requires empty { codes.old ≡ [] }
    requires room { most ≤ 64 }
    ensures texts { AreTextsOf (take result b.now) codes.new }
    ensures bound { result ≤ length b.now }
    ensures most { length codes.new ≤ most }
    ensures all { length codes.new < most → NoneBegins (drop result b.now) }
{
    let mut rest = b;
    while codes.len() < most {
        let Some((code, len)) = first_character(rest) else {
            break;
        };
        codes.push(code);
        rest = &rest[len..];
    }
    b.len() - rest.len()
}

// The character that the text begins with and the number of its bytes, if it is whole and shown.
#[inline(always)]
fn first_character(b: &[u8]) -> Option<(u32, usize)>
    ensures some { IfSome result (λ read. Begins b.now read.0 read.1) }
    ensures none { IfNone result (NoneBegins b.now) }
{
    match b {
        [first, second, third, ..] if is_common(*first) => common_character(
            *first, *second, *third,
        ),
        _ => any_character(b),
    }
}

// The character of two or three bytes that begins with these bytes and its length, if it is whole and
// shown. Text often has both lengths in turn, so no branch depends on the length: the code and the length
// are chosen separately, since one choice of both is compiled into a branch.
#[inline(always)]
fn common_character(a: u8, b: u8, c: u8) -> Option<(u32, usize)>
    requires common { is_common a ≡ true }
    ensures some { IfSome result (λ read. Begins (a ∷ b ∷ c ∷ []) read.0 read.1) }
    ensures none { IfNone result (NoneBegins (a ∷ b ∷ c ∷ [])) }
{
    let three = a >= 0xE0;
    let last = if three { c } else { 0x80 };
    if !is_tail(b) || !is_tail(last) {
        return None;
    }
    let two = u32::from(a) * 0x40 + u32::from(b);
    let code = if three {
        two * 0x40 + u32::from(c) - THREE_MARKS
    } else {
        two - TWO_MARKS
    };
    Some((code, if three { 3 } else { 2 }))
}

#[inline(always)]
fn is_common(a: u8) -> bool
    ensures { result ≡ is_common a }
{
    COMMON[usize::from(a)]
}

#[inline(always)]
fn is_tail(b: u8) -> bool
    ensures { result ≡ is_tail b }
{
    0x80 <= b && b <= 0xBF
}

// The character and its length, whatever the first byte is.
#[inline(always)]
fn any_character(b: &[u8]) -> Option<(u32, usize)>
    ensures some { IfSome result (λ read. Begins b.now read.0 read.1) }
    ensures none { IfNone result (NoneBegins b.now) }
{
    match b {
        [a, ..] if *a < 0x80 => Some((shown(decode_one(*a))?, 1)),
        [a, b, ..] if *a < 0xE0 => Some((shown(decode_two(*a, *b))?, 2)),
        [a, b, c, ..] if *a < 0xF0 => Some((shown(decode_three(*a, *b, *c))?, 3)),
        [a, b, c, d, ..] => Some((shown(decode_four(*a, *b, *c, *d))?, 4)),
        _ => None,
    }
}

#[inline(always)]
fn shown(decoded: Decoded) -> Option<u32>
    ensures some { IfSome result (λ code. (decoded ≡ Decoded.Character code) × (is_shown code ≡ true)) }
    ensures none { IfNone result (IsHidden decoded) }
{
    match decoded {
        Decoded::Character(code) => { if is_shown(code) { Some(code) } else { None } }
        Decoded::Unfinished => None,
        Decoded::Malformed => None,
    }
}

#[inline(always)]
fn is_shown(code: u32) -> bool
    ensures { result ≡ is_shown code }
{
    0x20 <= code && !(0x7F <= code && code <= 0x9F)
}
