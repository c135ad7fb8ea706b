//! A byte if no text is pending, or after the beginning of a character.
ghost use Rattle.std.specs.Prelude.{◌≡◌, [], ◌∷◌, ◌++◌};
ghost use Rattle.vt_chars.specs.Utf8.{decoding_of};
ghost use Rattle.vt_units.specs.Reading.{begins_csi, byte_unit, character_unit};
ghost use Rattle.vt_units.specs.ParserState.{IsOutcomeOf, Stands};

use crate::bytes::{decodes, is_control, is_csi, is_within};
use crate::parser_state::ParserState;
use crate::step::Step;
use crate::{Mode, Then, Unit};
use vt_chars::{Decoded, decode};

/// Reads a byte if no text is pending.
pub(crate) fn ground(mode: Mode, b: u8) -> (Then, Step)
    ensures { IsOutcomeOf mode [] b result.0 result.1 }
{
    if b == 0x1B {
        (Then::More, Step::Grow(ParserState::Escape))
    } else if is_csi(mode, b) {
        (Then::More, Step::Grow(ParserState::Control))
    } else if is_control(mode, b) {
        (Then::Unit(Unit::Control(b)), Step::Keep)
    } else if decodes(mode) {
        match decode(&[], b) {
            Decoded::Character(code) => (Then::Unit(character_unit(code)), Step::Keep),
            Decoded::Unfinished => (Then::More, Step::Grow(ParserState::Utf8)),
            Decoded::Malformed => (Then::Unit(Unit::Char(0xFFFD)), Step::Keep),
        }
    } else {
        (Then::Unit(byte_unit(mode, b)), Step::Keep)
    }
}

/// Reads a byte after the beginning of a character.
pub(crate) fn part(mode: Mode, text: &[u8], b: u8) -> (Then, Step)
    requires { Stands ParserState.Utf8 mode text.now }
    ensures { IsOutcomeOf mode text.now b result.0 result.1 }
{
    if begins_csi(text, b) {
        (Then::More, Step::Grow(ParserState::Control))
    } else {
        match decode(text, b) {
            Decoded::Character(code) => (Then::Unit(character_unit(code)), Step::Clear),
            Decoded::Unfinished => (Then::More, Step::Grow(ParserState::Utf8)),
            Decoded::Malformed => (Then::Dropped, Step::Clear),
        }
    }
}

// The bytes are the character U+009B.
fn begins_csi(text: &[u8], b: u8) -> bool
    requires { decoding_of text.now ≡ Decoded.Unfinished }
    ensures { result ≡ begins_csi (text.now ++ b ∷ []) }
{
    match text {
        [first] => *first == 0xC2 && b == 0x9B,
        _ => false,
    }
}

fn byte_unit(mode: Mode, b: u8) -> Unit
    ensures { result ≡ byte_unit mode b }
{
    if b == 0x7F && !mode.display {
        Unit::Ignored
    } else {
        Unit::Byte(b)
    }
}

fn character_unit(code: u32) -> Unit
    ensures { result ≡ character_unit code }
{
    if 0x7F <= code && code <= 0x9F {
        Unit::Ignored
    } else {
        Unit::Char(code)
    }
}
