//! Facts in words, with the callers, consoles and signals that they name.
use crate::patterns::{answer_at, call_at};
use crate::phrase::Phrase;
use vt_base::{CallerNo, ConsoleNo, KEYBOARDS, PROCESSES, Signal, parse_decimal};
use vt_explore::Fact;

/// The fact of the words at this place, and the place behind it.
pub(crate) fn fact_at(phrase: &Phrase, at: usize) -> Option<(Fact, usize)> {
    let next = at.saturating_add(1);
    let word = phrase.at(at);
    if word == b"call".as_slice() {
        let (pattern, end) = call_at(phrase, next)?;
        return Some((Fact::Call(pattern), end));
    }
    if word == b"=".as_slice() {
        let (pattern, end) = answer_at(phrase, next)?;
        return Some((Fact::Answer(pattern), end));
    }
    if word == b"locked".as_slice() {
        return Some((Fact::Locked, next));
    }
    if word == b"ended".as_slice() {
        return Some((Fact::Ended, next));
    }
    if word == b"stuck".as_slice() {
        return Some((Fact::Stuck, next));
    }
    match console_fact_at(phrase, at) {
        Some(found) => Some(found),
        None => caller_fact_at(phrase, at),
    }
}

// A fact of a console.
fn console_fact_at(phrase: &Phrase, at: usize) -> Option<(Fact, usize)> {
    let next = at.saturating_add(1);
    let last = at.saturating_add(2);
    let word = phrase.at(at);
    if word == b"pending".as_slice() && phrase.ends(next) {
        return Some((Fact::Pending(None), next));
    }
    let known = word == b"front".as_slice()
        || word == b"pending".as_slice()
        || word == b"graphics".as_slice()
        || word == b"owner".as_slice();
    if !known {
        return None;
    }
    let n = console_of(phrase.at(next))?;
    if word == b"front".as_slice() {
        return Some((Fact::Front(n), last));
    }
    if word == b"pending".as_slice() {
        return Some((Fact::Pending(Some(n)), last));
    }
    if word == b"graphics".as_slice() {
        return Some((Fact::Graphics(n), last));
    }
    if phrase.ends(last) {
        return Some((Fact::Owner(n, None), last));
    }
    let p = caller_of(phrase.at(last))?;
    Some((Fact::Owner(n, Some(p)), last.saturating_add(1)))
}

// A fact of a caller.
fn caller_fact_at(phrase: &Phrase, at: usize) -> Option<(Fact, usize)> {
    let next = at.saturating_add(1);
    let last = at.saturating_add(2);
    let behind = at.saturating_add(3);
    let word = phrase.at(at);
    let p = caller_of(phrase.at(next))?;
    if word == b"by".as_slice() {
        return Some((Fact::By(p), last));
    }
    if word == b"lives".as_slice() {
        return Some((Fact::Lives(p), last));
    }
    if word == b"waiting".as_slice() {
        return Some((Fact::Waiting(p), last));
    }
    if word == b"open".as_slice() {
        let n = console_of(phrase.at(last))?;
        return Some((Fact::Open(p, n), behind));
    }
    if word == b"signals".as_slice() {
        if phrase.ends(last) {
            return Some((Fact::Signals(p, None), last));
        }
        let s = signal_of(phrase.at(last))?;
        return Some((Fact::Signals(p, Some(s)), behind));
    }
    None
}

/// The caller that a word names: `p1` to `p64`, `k0` to `k3`.
pub(crate) fn caller_of(word: &[u8]) -> Option<CallerNo> {
    let (first, digits) = word.split_first()?;
    if *first == b'p' {
        let n = parse_decimal(digits, PROCESSES as u64)?;
        if n == 0 {
            return None;
        }
        return CallerNo::new(n as u16);
    }
    if *first == b'k' {
        let n = parse_decimal(digits, KEYBOARDS as u64)?;
        if n < KEYBOARDS as u64 {
            return Some(CallerNo::keyboard(n as u8));
        }
    }
    None
}

/// The console that a word names.
pub(crate) fn console_of(word: &[u8]) -> Option<ConsoleNo> {
    let n = parse_decimal(word, 65_535)?;
    ConsoleNo::new(n as u16)
}

fn signal_of(word: &[u8]) -> Option<Signal> {
    let n = parse_decimal(word, 65_535)?;
    Signal::new(n as u16)
}
