//! Patterns of calls and answers in words: `*` stands for any number, and for any bytes; words that are left
//! out at the end may be any.
use crate::phrase::Phrase;
use vt_base::{ShortList, parse_decimal};
use vt_events::{Kind, MOST_NUMBERS};
use vt_explore::{AnswerKind, AnswerPattern, CallPattern, NumberAt};

/// The pattern of a call at this place, and the place behind it.
pub(crate) fn call_at(phrase: &Phrase, at: usize) -> Option<(CallPattern, usize)> {
    let kind = Kind::named(phrase.at(at))?;
    let mut numbers = ShortList::new();
    let first = at.saturating_add(1);
    let mut end = numbers_at(phrase, first, kind.count(), 65_535, &mut numbers)?;
    if kind.holds_bytes() && !phrase.ends(end) {
        end = any_at(phrase, end)?;
    }
    Some((CallPattern { kind, numbers }, end))
}

/// The pattern of an answer at this place, and the place behind it.
pub(crate) fn answer_at(phrase: &Phrase, at: usize) -> Option<(AnswerPattern, usize)> {
    let (kind, count) = answer_kind(phrase.at(at))?;
    let mut numbers = ShortList::new();
    let first = at.saturating_add(1);
    if kind == AnswerKind::Err && !phrase.ends(first) {
        if let Some(number) = error_number(phrase.at(first)) {
            add(&mut numbers, 0, number);
            return Some((AnswerPattern { kind, numbers }, first.saturating_add(1)));
        }
    }
    let mut end = numbers_at(phrase, first, count, u64::MAX, &mut numbers)?;
    if kind == AnswerKind::Bytes && !phrase.ends(end) {
        end = any_at(phrase, end)?;
    }
    Some((AnswerPattern { kind, numbers }, end))
}

// The answer of this name, and how many numbers it has.
fn answer_kind(name: &[u8]) -> Option<(AnswerKind, usize)> {
    let names: [(&[u8], AnswerKind, usize); 9] = [
        (b"ok", AnswerKind::Done, 0),
        (b"num", AnswerKind::Num, 1),
        (b"state", AnswerKind::State, 2),
        (b"bytes", AnswerKind::Bytes, 0),
        (b"mode", AnswerKind::Mode, 5),
        (b"act", AnswerKind::Act, 2),
        (b"wait", AnswerKind::Wait, 0),
        (b"sigs", AnswerKind::Sigs, 1),
        (b"err", AnswerKind::Err, 1),
    ];
    for (word, kind, count) in &names {
        if *word == name {
            return Some((*kind, *count));
        }
    }
    None
}

/// The number of an error by its name in small letters, as `ebusy` (errno(3)).
pub(crate) fn error_number(name: &[u8]) -> Option<u64> {
    let names: [(&[u8], u64); 9] = [
        (b"eperm", 1),
        (b"esrch", 3),
        (b"eintr", 4),
        (b"enxio", 6),
        (b"ebadf", 9),
        (b"eagain", 11),
        (b"ebusy", 16),
        (b"einval", 22),
        (b"enotty", 25),
    ];
    for (word, number) in &names {
        if *word == name {
            return Some(*number);
        }
    }
    None
}

// Takes up to `count` numbers, and returns the place behind them.
fn numbers_at(
    phrase: &Phrase,
    first: usize,
    count: usize,
    most: u64,
    numbers: &mut ShortList<NumberAt, MOST_NUMBERS>,
) -> Option<usize> {
    let mut end = first;
    for place in 0..count {
        if phrase.ends(end) {
            return Some(end);
        }
        if !phrase.has(end, b"*") {
            let number = parse_decimal(phrase.at(end), most)?;
            let Ok(place) = u8::try_from(place) else {
                return None;
            };
            add(numbers, place, number);
        }
        end = end.saturating_add(1);
    }
    Some(end)
}

fn any_at(phrase: &Phrase, at: usize) -> Option<usize> {
    if phrase.has(at, b"*") {
        Some(at.saturating_add(1))
    } else {
        None
    }
}

/// Names the number at a place.
pub(crate) fn add(numbers: &mut ShortList<NumberAt, MOST_NUMBERS>, place: u8, number: u64) {
    if numbers.as_slice().len() < MOST_NUMBERS {
        numbers.push(NumberAt { place, number });
    }
}
