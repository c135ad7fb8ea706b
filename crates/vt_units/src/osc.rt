//! The parser after ESC ], up to the end of a command or of a palette entry.
ghost use Rattle.std.specs.Prelude.{◌≡◌};
ghost use Rattle.vt_units.specs.ParserState.{Inside, IsOutcomeOf, Stands};

use crate::bytes::{acts, is_digit, is_hex};
use crate::parser_state::ParserState;
use crate::sequence_units::colour_unit;
use crate::step::Step;
use crate::{Mode, Then, Unit};

// The bytes of ESC ] P.
const OPENING: usize = 3;

// The number of digits of a colour before its last one.
const DIGITS: usize = 6;

/// Reads a byte right after ESC ].
pub(crate) fn command(mode: Mode, text: &[u8], b: u8) -> (Then, Step)
    requires { Stands ParserState.Osc mode text.now }
    ensures { Inside mode text.now b result.0 result.1 }
{
    // Neither matters in this state.
    let _ = mode;
    let _ = text;
    if acts(b) {
        (Then::Act(b), Step::Keep)
    } else if is_digit(b) {
        (Then::More, Step::Grow(ParserState::ControlString))
    } else if b == b'P' {
        (Then::More, Step::Grow(ParserState::Palette))
    } else if b == b'R' {
        (Then::Unit(Unit::ColourReset), Step::Clear)
    } else {
        (Then::Dropped, Step::Clear)
    }
}

/// Reads a byte after ESC ] P and digits.
pub(crate) fn palette(mode: Mode, text: &[u8], b: u8) -> (Then, Step)
    requires { Stands ParserState.Palette mode text.now }
    ensures { Inside mode text.now b result.0 result.1 }
{
    let _ = mode;
    if acts(b) {
        (Then::Act(b), Step::Keep)
    } else if !is_hex(b) {
        (Then::Dropped, Step::Clear)
    } else if text.len() < OPENING + DIGITS {
        (Then::More, Step::Grow(ParserState::Palette))
    } else {
        (Then::Unit(colour_unit(&text[OPENING..], b)), Step::Clear)
    }
}
