//! The parser in a string, and after an ESC in it.
ghost use Rattle.std.specs.Prelude.{◌≡◌};
ghost use Rattle.vt_units.specs.ParserState.{Inside, Stands};

use crate::bytes::is_swallowed;
use crate::parser_state::ParserState;
use crate::step::Step;
use crate::{Mode, Then, Unit};

/// Reads a byte in a string.
pub(crate) fn string(mode: Mode, text: &[u8], b: u8) -> (Then, Step)
    requires { Stands ParserState.ControlString mode text.now }
    ensures { Inside mode text.now b result.0 result.1 }
{
    // Neither matters in this state.
    let _ = mode;
    let _ = text;
    if is_swallowed(b) {
        (Then::More, Step::Keep)
    } else if b == 0x1B {
        (Then::More, Step::Grow(ParserState::StringEscape))
    } else {
        (Then::Unit(Unit::Ignored), Step::Clear)
    }
}

/// Reads a byte after an ESC in a string.
pub(crate) fn string_end(mode: Mode, text: &[u8], b: u8) -> (Then, Step)
    requires { Stands ParserState.StringEscape mode text.now }
    ensures { Inside mode text.now b result.0 result.1 }
{
    // Neither matters in this state.
    let _ = mode;
    let _ = text;
    if b == b'\\' {
        (Then::Unit(Unit::Ignored), Step::Clear)
    } else {
        (Then::Dropped, Step::Clear)
    }
}
