//! SGR that sets one colour, at the start of a text, read without a list of its parameters.
ghost use Rattle.std.specs.Prelude.{◌≡◌, ◌≢◌, ◌≤◌, ◌<◌, ◌+◌, false, true, length, slice_index, Some, IfSome, MatchOption};
ghost use Rattle.vt_units.specs.WholeSequence.{opened_ahead};
ghost use Rattle.vt_units.specs.ShortForms.{begins_colour, begins_longer};
ghost use Rattle.vt_units.specs.ShortSequences.{Begun, Goes, sgr_in};
ghost use Rattle.vt_units.specs.Bytes.{is_digit};

use crate::LongSgr;
use crate::bytes::is_within;
use crate::short_csi_ahead::{number_at, with_digit};

/// The most bytes of such a sequence: ESC, `[`, 38 and 2 each with a `;` after it, three numbers of three
/// digits with a `;` between them, and the last byte.
const LONG_SGR_BYTES: usize = 19;

/// The sequence of SGR that the text begins with, if it sets one colour by an index or by three parts, each
/// of at most three digits.
#[inline(always)]
pub(crate) fn long_sgr_ahead(b: &[u8]) -> Option<LongSgr>
    ensures sequence { IfSome result (λ longer. opened_ahead b.now ≡ Some (sgr_in longer)) }
    ensures exact { MatchOption result (begins_longer b.now ≡ false) (λ _. begins_longer b.now ≡ true) }
{
    if b.len() < LONG_SGR_BYTES || !begins_colour(b) {
        return None;
    }
    let first = two_digits_at(b, 2);
    let second = digit_at(b, 5);
    let (third, end) = number_at(b, 7);
    if b[5] == b'5' {
        three_numbers(b, first, second, third, end)
    } else {
        five_numbers(b, first, second, third, end)
    }
}

// Whether the text begins with ESC [, 38 or 48, and 5 or 2, with a `;` after each number. The code that
// follows is compiled for these prefixes alone, so the places of the numbers are known.
#[inline(always)]
fn begins_colour(b: &[u8]) -> bool
    requires { 19 ≤ length b.now }
    ensures exact { result ≡ begins_colour b.now }
    ensures begins { result ≡ true → Begun b.now }
    ensures ground { result ≡ true → is_digit (slice_index b.now 2) ≡ true }
    ensures eight { result ≡ true → is_digit (slice_index b.now 3) ≡ true }
    ensures one { result ≡ true → slice_index b.now 4 ≡ 0x3B }
    ensures kind { result ≡ true → is_digit (slice_index b.now 5) ≡ true }
    ensures two { result ≡ true → slice_index b.now 6 ≡ 0x3B }
{
    is_within(b'3', b'4', b[2])
        && b[3] == b'8'
        && b[4] == b';'
        && (b[5] == b'5' || b[5] == b'2')
        && b[6] == b';'
        && b[0] == 0x1B
        && b[1] == b'['
}

// The number of these two digits.
#[inline(always)]
#[tactic(auto, using(crate::proofs::ShortSequences::goes_none, crate::proofs::ShortSequences::goes_on))]
fn two_digits_at(b: &[u8], at: usize) -> u16
    requires within { at + 2 ≤ length b.now }
    requires first { is_digit (slice_index b.now at) ≡ true }
    requires second { is_digit (slice_index b.now (at + 1)) ≡ true }
    ensures goes { Goes b.now 0 at result (at + 2) }
{
    with_digit(with_digit(0, b[at]), b[at + 1]) as u16
}

// The number of this digit.
#[inline(always)]
#[tactic(auto, using(crate::proofs::ShortSequences::goes_none, crate::proofs::ShortSequences::goes_on))]
fn digit_at(b: &[u8], at: usize) -> u16
    requires within { at < length b.now }
    requires digit { is_digit (slice_index b.now at) ≡ true }
    ensures goes { Goes b.now 0 at result (at + 1) }
{
    with_digit(0, b[at]) as u16
}

// SGR of three parameters, the last of which ends before place `end`.
#[inline(always)]
#[tactic(auto, using(crate::proofs::ShortSequences::three_are))]
fn three_numbers(b: &[u8], first: u16, second: u16, third: u16, end: usize) -> Option<LongSgr>
    requires begins { Begun b.now }
    requires first { Goes b.now 0 2 first 4 }
    requires second { Goes b.now 0 5 second 6 }
    requires third { Goes b.now 0 7 third end }
    requires colour { begins_colour b.now ≡ true }
    requires way { slice_index b.now 5 ≡ 0x35 }
    requires one { slice_index b.now 4 ≡ 0x3B }
    requires two { slice_index b.now 6 ≡ 0x3B }
    requires few { end ≤ 10 }
    requires stops { is_digit (slice_index b.now end) ≡ true → end ≡ 10 }
    requires within { 19 ≤ length b.now }
    ensures sequence { IfSome result (λ longer. opened_ahead b.now ≡ Some (sgr_in longer)) }
    ensures exact { MatchOption result (begins_longer b.now ≡ false) (λ _. begins_longer b.now ≡ true) }
{
    if b[end] != b'm' {
        return None;
    }
    Some(LongSgr {
        first,
        second,
        third,
        fourth: 0,
        fifth: 0,
        five: false,
        count: end + 1,
    })
}

// SGR of five parameters, three of which are read: the third ends before place `end`.
#[inline(always)]
fn five_numbers(b: &[u8], first: u16, second: u16, third: u16, end: usize) -> Option<LongSgr>
    requires begins { Begun b.now }
    requires first { Goes b.now 0 2 first 4 }
    requires second { Goes b.now 0 5 second 6 }
    requires third { Goes b.now 0 7 third end }
    requires colour { begins_colour b.now ≡ true }
    requires way { slice_index b.now 5 ≢ 0x35 }
    requires one { slice_index b.now 4 ≡ 0x3B }
    requires two { slice_index b.now 6 ≡ 0x3B }
    requires few { end ≤ 10 }
    requires stops { is_digit (slice_index b.now end) ≡ true → end ≡ 10 }
    requires within { 19 ≤ length b.now }
    ensures sequence { IfSome result (λ longer. opened_ahead b.now ≡ Some (sgr_in longer)) }
    ensures exact { MatchOption result (begins_longer b.now ≡ false) (λ _. begins_longer b.now ≡ true) }
{
    if b[end] != b';' {
        return None;
    }
    let (fourth, next) = number_at(b, end + 1);
    if b[next] != b';' {
        return None;
    }
    let (fifth, last) = number_at(b, next + 1);
    if b[last] != b'm' {
        return None;
    }
    Some(LongSgr {
        first,
        second,
        third,
        fourth,
        fifth,
        five: true,
        count: last + 1,
    })
}
