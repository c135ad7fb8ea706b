//! The parameters of a control sequence.
ghost use Rattle.std.specs.Prelude.{◌≡◌, ◌≤◌, ◌+◌, ◌++◌, ◌∷◌, [], take, drop, length};
ghost use Rattle.vt_units.specs.Numbers.{numbers_after, params_of, number_with_digit};
ghost use Rattle.vt_units.specs.Reading.{after_prefix, longest_prefix};
ghost use Rattle.vt_units.specs.Sequences.{is_parameter};

use crate::Params;
use crate::bytes::is_digit;
use crate::short_csi_ahead::number_at;

/// The numbers between the semicolons, of which the first 16 count.
pub(crate) fn params_of(body: &[u8]) -> Params
    ensures { result ≡ params_of body.now }
{
    let mut params = Params::new();
    let mut number = 0;
    for b in body {
        if *b == b';' {
            add(&mut params, number);
            number = 0;
        } else {
            number = number_with_digit(number, *b);
        }
    }
    add(&mut params, number);
    params
}

/// Reads the digits and semicolons at the start of the text, and returns their number. `params` is replaced
/// by the parameters.
pub(crate) fn read_numbers(text: &[u8], params: &mut Params) -> usize
    ensures params { params.new ≡ params_of (longest_prefix is_parameter text.now) }
    ensures count { result ≡ length (longest_prefix is_parameter text.now) }
    ensures rest { drop result text.now ≡ after_prefix is_parameter text.now }
    ensures bound { result ≤ length text.now }
{
    params.clear();
    let mut at = 0;
    while at + 4 <= text.len() {
        let (number, end) = number_at(text, at);
        if is_digit(text[end]) {
            break;
        }
        add(params, u32::from(number));
        if text[end] != b';' {
            return end;
        }
        at = end + 1;
    }
    at + read_more_numbers(&text[at..], params)
}

// Reads the parameters at the start of the text, after others.
fn read_more_numbers(text: &[u8], params: &mut Params) -> usize
    ensures params { params.new
        ≡ take 16 (params.old ++ numbers_after 0 (longest_prefix is_parameter text.now)) }
    ensures count { result ≡ length (longest_prefix is_parameter text.now) }
    ensures rest { drop result text.now ≡ after_prefix is_parameter text.now }
    ensures bound { result ≤ length text.now }
{
    let mut number = 0;
    for (i, b) in text.iter().enumerate() {
        if is_digit(*b) {
            number = number_with_digit(number, *b);
        } else if *b == b';' {
            add(params, number);
            number = 0;
        } else {
            add(params, number);
            return i;
        }
    }
    add(params, number);
    text.len()
}

// Adds a parameter, if it counts.
fn add(params: &mut Params, number: u32)
    requires { number ≤ 65535 }
    ensures { params.new ≡ take 16 (params.old ++ number ∷ []) }
{
    if params.as_slice().len() < 16 {
        params.push(number as u16);
    }
}

// The number with one digit more, at most 65,535.
fn number_with_digit(number: u32, digit: u8) -> u32
    requires { number ≤ 65535 }
    ensures { result ≡ number_with_digit number digit }
{
    let value = u32::from(digit.saturating_sub(b'0'));
    (number * 10 + value).min(65_535)
}
