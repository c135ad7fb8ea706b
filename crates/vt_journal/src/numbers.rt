//! Numbers of a journal's calls and answers: words that are one number, or some of given ranges.
ghost use Rattle.std.specs.Prelude.{◌≡◌, ◌+◌, ◌<◌, ◌≤◌, ◌^◌, [], ◌∷◌, length, map, decimal, option_map, IfSome};
ghost use Rattle.std.specs.List.{All};
ghost use Rattle.vt_journal.specs.Replies.{Within};
ghost use Rattle.vt_journal.specs.Readers.{Finds, Takes};
ghost use Rattle.vt_journal.specs.Words.{one_number};

use crate::words::Words;
use arrayvec::ArrayVec;
use vt_base::parse_decimal;
use vt_events::MOST_NUMBERS;

/// The most numbers of an answer.
pub(crate) const ANSWER_NUMBERS: usize = 5;

/// How many numbers have at most eight digits.
const SHORT_NUMBERS: u64 = 100_000_000;

/// The next `count` words as numbers of 16 bits.
pub(crate) fn read_numbers(words: &mut Words, count: usize) -> Option<ArrayVec<u16, MOST_NUMBERS>>
    requires { count ≤ MOST_NUMBERS }
    ensures takes { Takes (map decimal) (λ ns. (length ns ≡ count) × All (λ n. n < 2 ^ 16) ns)
        words.old words.new (option_map (λ ns. ns.items) result) }
    ensures many { IfSome result (λ ns. length ns.items ≡ count) }
    ensures fit { IfSome result (λ ns. All (λ n. n < 2 ^ 16) ns.items) }
{
    let mut numbers = ArrayVec::new();
    for i in 0..count {
        numbers.push(read_number(words)?);
    }
    Some(numbers)
}

// The next word as a number of 16 bits.
fn read_number(words: &mut Words) -> Option<u16>
    ensures { Takes one_number (λ n. n < 2 ^ 16) words.old words.new result }
{
    let n = take_number(words, u64::from(u16::MAX))?;
    Some(n as u16)
}

/// The next words as numbers, one for each of `mosts` and at most that.
pub(crate) fn take_numbers(
    words: &mut Words,
    mosts: &[u64],
) -> Option<ArrayVec<u64, ANSWER_NUMBERS>>
    requires { length mosts.now ≤ ANSWER_NUMBERS }
    ensures takes { Takes (map decimal) (Within mosts.now) words.old words.new
        (option_map (λ ns. ns.items) result) }
    ensures fit { IfSome result (λ ns. Within mosts.now ns.items) }
{
    let mut numbers = ArrayVec::new();
    for i in 0..mosts.len() {
        numbers.push(take_number(words, mosts[i])?);
    }
    Some(numbers)
}

/// Takes the next word as a number of at most `most`.
pub fn take_number(words: &mut Words, most: u64) -> Option<u64>
    ensures takes { Takes one_number (λ n. n ≤ most) words.old words.new result }
    ensures fit { IfSome result (λ n. n ≤ most) }
{
    let word = words.next()?;
    number_of(word, most)
}

/// The number of at most `most` that the word spells.
#[inline(always)]
pub(crate) fn number_of(word: &[u8], most: u64) -> Option<u64>
    ensures finds { Finds decimal (λ n. n ≤ most) word.now result }
    ensures fit { IfSome result (λ n. n ≤ most) }
{
    if let Some(n) = short_number(word) {
        if n <= most {
            return Some(n);
        }
    }
    parse_decimal(word, most)
}

// The number of a word of at most nine digits, the first of which isn't 0 if there are more; `None` for any
// other word.
fn short_number(word: &[u8]) -> Option<u64>
    ensures { IfSome result (λ n. decimal n ≡ word.now) }
{
    if word.is_empty() {
        return None;
    }
    let mut n = digit(word[0])?;
    if word.len() == 1 {
        return Some(n);
    }
    if n == 0 {
        return None;
    }
    for i in 1..word.len() {
        if SHORT_NUMBERS <= n {
            return None;
        }
        let next = digit(word[i])?;
        n = 10 * n + next;
    }
    Some(n)
}

// The number of a digit.
#[inline(always)]
fn digit(byte: u8) -> Option<u64>
    ensures { IfSome result (λ n. (n < 10) × (byte ≡ 48 + n)) }
{
    if byte < b'0' || b'9' < byte {
        return None;
    }
    Some(u64::from(byte - b'0'))
}
