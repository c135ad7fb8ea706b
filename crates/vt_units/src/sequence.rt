//! The parser after ESC or CSI: a byte inside a sequence that isn't a string.
ghost use Rattle.std.specs.Prelude.{◌≡◌, ◌≤◌, ◌<◌, ◌==◌, ◌&&◌, ◌∷◌, length};
ghost use Rattle.vt_units.specs.Bytes.{is_mid, opens_string};
ghost use Rattle.vt_units.specs.Reading.{is_empty};
ghost use Rattle.vt_units.specs.ParserState.{Each, HasBody, Inside, IsSequence, IsOutcomeOf, Stands};

use crate::bytes::{acts, is_body, is_mid, is_within, opens_string};
use crate::parser_state::ParserState;
use crate::pending_bytes::SEQUENCE_BYTES;
use crate::sequence_units::{control_unit, escape_unit};
use crate::step::Step;
use crate::{Mode, Then, Unit};

/// A byte that acts or vanishes is handled first, then the bound, and then the bytes that the sequence
/// admits.
pub(crate) fn sequence(stage: ParserState, mode: Mode, text: &[u8], b: u8) -> (Then, Step)
    requires stands { Stands stage mode text.now }
    requires sequence { IsSequence stage }
    requires bound { length text.now ≤ 256 }
    ensures { Inside mode text.now b result.0 result.1 }
{
    if acts(b) {
        (Then::Act(b), Step::Keep)
    } else if b == 0x7F {
        (Then::More, Step::Keep)
    } else if text.len() == SEQUENCE_BYTES {
        (Then::Dropped, Step::Clear)
    } else {
        match stage {
            ParserState::Escape => escape(mode, text, b),
            ParserState::Control => control(mode, text, b),
            _ => bracket(mode, text, b),
        }
    }
}

// Reads a byte after ESC and intermediate bytes.
fn escape(mode: Mode, text: &[u8], b: u8) -> (Then, Step)
    requires stands { Stands ParserState.Escape mode text.now }
    requires room { length text.now < 256 }
    ensures { IsOutcomeOf mode text.now b result.0 result.1 }
{
    let mids = mids_of(mode, text);
    if is_mid(b) {
        (Then::More, Step::Grow(ParserState::Escape))
    } else if opens_first(mids, b) {
        (Then::More, Step::Grow(ParserState::ControlString))
    } else if is_first(mids, b, b'[') {
        (Then::More, Step::Grow(ParserState::Control))
    } else if is_first(mids, b, b']') {
        (Then::More, Step::Grow(ParserState::Osc))
    } else if is_within(0x30, 0x7E, b) {
        (Then::Unit(escape_unit(mids, b)), Step::Clear)
    } else {
        (Then::Dropped, Step::Clear)
    }
}

fn mids_of(mode: Mode, text: &[u8]) -> &[u8]
    requires { Stands ParserState.Escape mode text.now }
    ensures text { text.now ≡ 0x1B ∷ result.now }
    ensures mids { Each is_mid result.now }
{
    let _ = mode;
    &text[1..]
}

// Reads a byte after CSI and a body.
fn control(mode: Mode, text: &[u8], b: u8) -> (Then, Step)
    requires stands { Stands ParserState.Control mode text.now }
    requires room { length text.now < 256 }
    ensures { IsOutcomeOf mode text.now b result.0 result.1 }
{
    let body = body_of(mode, text);
    if is_body(b) {
        (Then::More, Step::Grow(ParserState::Control))
    } else if is_first(body, b, b'[') {
        (Then::More, Step::Grow(ParserState::CsiBracket))
    } else if is_within(0x40, 0x7E, b) {
        (Then::Unit(control_unit(body, b)), Step::Clear)
    } else {
        (Then::Dropped, Step::Clear)
    }
}

// CSI is one byte, or two if it begins with ESC or is the character U+009B.
fn body_of(mode: Mode, text: &[u8]) -> &[u8]
    requires { Stands ParserState.Control mode text.now }
    ensures { HasBody mode text.now result.now }
{
    let _ = mode;
    if text[0] == 0x9B {
        &text[1..]
    } else {
        &text[2..]
    }
}

// Reads a byte after CSI [.
fn bracket(mode: Mode, text: &[u8], b: u8) -> (Then, Step)
    requires stands { Stands ParserState.CsiBracket mode text.now }
    requires room { length text.now < 256 }
    ensures { IsOutcomeOf mode text.now b result.0 result.1 }
{
    let _ = mode;
    let _ = text;
    if is_within(0x20, 0x7E, b) {
        (Then::Unit(Unit::Ignored), Step::Clear)
    } else {
        (Then::Dropped, Step::Clear)
    }
}

// The byte opens a string, with nothing before it.
fn opens_first(before: &[u8], b: u8) -> bool
    ensures { result ≡ (is_empty before.now && opens_string b) }
{
    before.is_empty() && opens_string(b)
}

// The byte is this sign, with nothing before it.
fn is_first(before: &[u8], b: u8, sign: u8) -> bool
    ensures { result ≡ (is_empty before.now && b == sign) }
{
    before.is_empty() && b == sign
}
