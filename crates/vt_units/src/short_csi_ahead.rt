//! A short sequence at the start of a text, read without a list of its parameters.
ghost use Rattle.std.specs.Prelude.{◌≡◌, ◌==◌, ◌≤◌, ◌+◌, ◌*◌, length, slice_index, false, true, Some, IfSome, MatchOption};
ghost use Rattle.vt_units.specs.WholeSequence.{ends_control, opened_ahead, sequence_ahead};
ghost use Rattle.vt_units.specs.ShortForms.{begins_short, begins_escape, is_short_end};
ghost use Rattle.vt_units.specs.ShortSequences.{Begun, Goes, csi_in};
ghost use Rattle.vt_units.specs.Bytes.{is_digit};
ghost use Rattle.vt_units.specs.Numbers.{number_with_digit};
ghost use Rattle.vt_units.specs.declared.unit.Unit.TheVariants.{Esc};

use crate::ShortCsi;
use crate::bytes::{is_digit, is_within};

/// The most bytes of such a sequence: ESC, `[`, two numbers of three digits, `;` and the last byte.
const SHORT_CSI_BYTES: usize = 10;

/// The control sequence of one or two parameters, each of at most three digits, that the text begins with, if
/// the text has as many bytes as the longest such sequence.
#[inline(always)]
pub(crate) fn short_csi_ahead(b: &[u8]) -> Option<ShortCsi>
    ensures sequence { IfSome result (λ brief. opened_ahead b.now ≡ Some (csi_in brief)) }
    ensures exact { MatchOption result (begins_short b.now ≡ false) (λ _. begins_short b.now ≡ true) }
{
    if b.len() < SHORT_CSI_BYTES {
        return None;
    }
    if b[0] != 0x1B {
        return None;
    }
    if b[1] != b'[' {
        return None;
    }
    let (first, at) = number_at(b, 2);
    if b[at] != b';' {
        return one_number(b, first, at);
    }
    let (second, end) = number_at(b, at + 1);
    two_numbers(b, first, second, at, end)
}

// The sequence of one parameter, which ends before place `at`.
#[inline(always)]
#[tactic(auto, using(crate::proofs::ShortSequences::one_is, crate::proofs::ShortForms::one_exact))]
fn one_number(b: &[u8], first: u16, at: usize) -> Option<ShortCsi>
    requires begins { Begun b.now }
    requires first { Goes b.now 0 2 first at }
    requires order { 2 ≤ at }
    requires few { at ≤ 5 }
    requires stops { is_digit (slice_index b.now at) ≡ true → at ≡ 5 }
    requires last { (slice_index b.now at == 0x3B) ≡ false }
    requires within { at + 1 ≤ length b.now }
    ensures sequence { IfSome result (λ brief. opened_ahead b.now ≡ Some (csi_in brief)) }
    ensures exact { MatchOption result (begins_short b.now ≡ false) (λ _. begins_short b.now ≡ true) }
{
    if !ends_short(b[at]) {
        return None;
    }
    Some(ShortCsi {
        first,
        second: 0,
        both: false,
        last: b[at],
        count: at + 1,
    })
}

// The sequence of two parameters, which end before a `;` at place `at` and before place `end`.
#[inline(always)]
#[tactic(auto, using(crate::proofs::ShortSequences::two_is, crate::proofs::ShortForms::two_exact))]
fn two_numbers(b: &[u8], first: u16, second: u16, at: usize, end: usize) -> Option<ShortCsi>
    requires begins { Begun b.now }
    requires first { Goes b.now 0 2 first at }
    requires second { Goes b.now 0 (at + 1) second end }
    requires parts { slice_index b.now at ≡ 0x3B }
    requires start { 2 ≤ at }
    requires order { at + 1 ≤ end }
    requires few { at ≤ 5 }
    requires more { end ≤ at + 4 }
    requires stops { is_digit (slice_index b.now end) ≡ true → end ≡ at + 4 }
    requires within { end + 1 ≤ length b.now }
    ensures sequence { IfSome result (λ brief. opened_ahead b.now ≡ Some (csi_in brief)) }
    ensures exact { MatchOption result (begins_short b.now ≡ false) (λ _. begins_short b.now ≡ true) }
{
    if !ends_short(b[end]) {
        return None;
    }
    Some(ShortCsi {
        first,
        second,
        both: true,
        last: b[end],
        count: end + 1,
    })
}

/// The number of at most three digits at this place, and the place after it.
#[inline(always)]
#[tactic(auto, using(crate::proofs::ShortSequences::goes_none, crate::proofs::ShortSequences::goes_on))]
pub(crate) fn number_at(b: &[u8], at: usize) -> (u16, usize)
    requires within { at + 4 ≤ length b.now }
    ensures goes { Goes b.now 0 at result.0 result.1 }
    ensures low { at ≤ result.1 }
    ensures high { result.1 ≤ at + 3 }
    ensures stops { is_digit (slice_index b.now result.1) ≡ true → result.1 ≡ at + 3 }
{
    if !is_digit(b[at]) {
        return (0, at);
    }
    let one = with_digit(0, b[at]);
    if !is_digit(b[at + 1]) {
        return (one as u16, at + 1);
    }
    let two = with_digit(one, b[at + 1]);
    if !is_digit(b[at + 2]) {
        return (two as u16, at + 2);
    }
    (with_digit(two, b[at + 2]) as u16, at + 3)
}

// Whether the byte ends a control sequence and is one that is read here: a letter, `@` or a grave accent. The
// few others are left to the slower way.
#[inline(always)]
fn ends_short(b: u8) -> bool
    ensures byte { result ≡ is_short_end b }
    ensures ends { result ≡ true → ends_control b ≡ true }
{
    is_within(0x40, 0x5A, b) || is_within(0x60, 0x7A, b)
}

// The number with one digit more.
#[inline(always)]
pub(crate) fn with_digit(number: u32, digit: u8) -> u32
    requires small { number ≤ 99 }
    requires digit { is_digit digit ≡ true }
    ensures number { result ≡ number_with_digit number digit }
    ensures bound { result ≤ number * 10 + 9 }
{
    number * 10 + u32::from(digit - b'0')
}

/// The last byte of the escape sequence of two bytes that the text begins with, if it is from `0` to `O`.
#[inline(always)]
pub(crate) fn escape_ahead_of(b: &[u8]) -> Option<u8>
    ensures sequence { IfSome result (λ last. sequence_ahead b.now
        ≡ Some (record { unit = Esc 0 last; count = 2 })) }
    ensures within { IfSome result (λ _. 2 ≤ length b.now) }
    ensures exact { MatchOption result (begins_escape b.now ≡ false) (λ _. begins_escape b.now ≡ true) }
{
    match b {
        [0x1B, last, ..] if is_within(0x30, 0x4F, *last) => Some(*last),
        _ => None,
    }
}
