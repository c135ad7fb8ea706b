//! The units of finished sequences.
ghost use Rattle.std.specs.Prelude.{◌≡◌, ◌<◌, ◌++◌, ◌∷◌, [], true, length};
ghost use Rattle.std.specs.List.{list_all};
ghost use Rattle.vt_units.specs.Bytes.{is_hex};
ghost use Rattle.vt_units.specs.Sequences.{colour_unit, control_unit, escape_unit, hex_pair, hex_value, is_parameter, numbered_unit};
ghost use Rattle.vt_units.specs.ParserState.{Each};

use crate::Unit;
use crate::bytes::{is_digit, is_within};
use crate::numbers::params_of;

/// An escape sequence, by its intermediate bytes and its last one.
pub(crate) fn escape_unit(mids: &[u8], last: u8) -> Unit
    ensures { result ≡ escape_unit mids.now last }
{
    match mids {
        [] => Unit::Esc { mid: 0, last },
        [mid] => Unit::Esc { mid: *mid, last },
        _ => Unit::Ignored,
    }
}

/// A control sequence, by its body and its last byte.
pub(crate) fn control_unit(body: &[u8], last: u8) -> Unit
    ensures { result ≡ control_unit body.now last }
{
    match body {
        [b'?', numbers @ ..] => numbered_unit(true, numbers, last),
        _ => numbered_unit(false, body, last),
    }
}

fn numbered_unit(private: bool, numbers: &[u8], last: u8) -> Unit
    ensures { result ≡ numbered_unit private numbers.now last }
{
    if are_parameters(numbers) {
        let params = params_of(numbers);
        Unit::Csi {
            private,
            params,
            last,
        }
    } else {
        Unit::Ignored
    }
}

fn are_parameters(numbers: &[u8]) -> bool
    ensures { result ≡ list_all is_parameter numbers.now }
{
    numbers.iter().all(|b| is_parameter(*b))
}

fn is_parameter(b: u8) -> bool
    ensures { result ≡ is_parameter b }
{
    is_digit(b) || b == b';'
}

/// A colour of the palette, by its first six digits and its last one.
pub(crate) fn colour_unit(digits: &[u8], last: u8) -> Unit
    requires six { length digits.now ≡ 6 }
    requires digits { Each is_hex digits.now }
    requires last { is_hex last ≡ true }
    ensures { result ≡ colour_unit (digits.now ++ last ∷ []) }
{
    Unit::Colour {
        n: hex_value(digits[0]),
        rgb: (
            hex_pair(digits[1], digits[2]),
            hex_pair(digits[3], digits[4]),
            hex_pair(digits[5], last),
        ),
    }
}

fn hex_pair(high: u8, low: u8) -> u8
    requires high { is_hex high ≡ true }
    requires low { is_hex low ≡ true }
    ensures { result ≡ hex_pair high low }
{
    hex_value(high) * 16 + hex_value(low)
}

fn hex_value(b: u8) -> u8
    requires { is_hex b ≡ true }
    ensures value { result ≡ hex_value b }
    ensures bound { result < 16 }
{
    if is_digit(b) {
        b - b'0'
    } else if is_within(b'A', b'F', b) {
        b - b'A' + 10
    } else {
        b - b'a' + 10
    }
}
