//! Questions in words: the facts, names and quoted texts of each as conditions.
use crate::ending::Failure;
use crate::facts::{console_of, fact_at};
use crate::names::name_at;
use crate::phrase::Phrase;
use std::alloc::Global;
use vt_base::{Bytes, ConsoleNo, NoMemory};
use vt_explore::{Condition, Conditions, Fact};

/// For each console the question whether it has the display at the end.
pub(crate) fn last_displays(alloc: Global) -> Result<Vec<Conditions>, NoMemory> {
    let mut questions = Vec::new(alloc);
    for c in ConsoleNo::all() {
        let mut all = Vec::new(alloc);
        all.push(Condition {
            holds: true,
            fact: Fact::Front(c),
        })?;
        all.push(Condition {
            holds: true,
            fact: Fact::Ended,
        })?;
        questions.push(Conditions::of(all))?;
    }
    Ok(questions)
}

/// The conditions that a question's text asks for. `number` is that of the question, from 1.
pub(crate) fn question_of(
    alloc: Global,
    text: &[u8],
    number: usize,
) -> Result<Conditions, Failure> {
    let phrase = Phrase::of(alloc, text)?;
    let mut all = Vec::new(alloc);
    let mut at = 0;
    for _condition in 0..phrase.len() {
        let Some(end) = take_condition(alloc, &phrase, at, &mut all)? else {
            return Err(fault(number, at));
        };
        if phrase.len() <= end {
            return Ok(Conditions::of(all));
        }
        if !phrase.has(end, b"and") {
            return Err(fault(number, end));
        }
        at = end.saturating_add(1);
    }
    Err(fault(number, at))
}

fn fault(question: usize, place: usize) -> Failure {
    Failure::Question {
        question,
        word: place.saturating_add(1),
    }
}

// Adds the conditions of the words at this place. Returns the place behind them, if they are some.
fn take_condition(
    alloc: Global,
    phrase: &Phrase,
    at: usize,
    all: &mut Vec<Condition>,
) -> Result<Option<usize>, NoMemory> {
    if let Some(end) = name_at(phrase, at, all)? {
        return Ok(Some(end));
    }
    let holds = !phrase.has(at, b"not");
    let place = if holds { at } else { at.saturating_add(1) };
    if phrase.has(place, b"shows") {
        return take_text(alloc, phrase, place, holds, all);
    }
    match fact_at(phrase, place) {
        Some((fact, end)) => {
            all.push(Condition { holds, fact })?;
            Ok(Some(end))
        }
        None => Ok(None),
    }
}

// Adds the fact `shows N "TEXT"` at this place, or that it doesn't hold.
fn take_text(
    alloc: Global,
    phrase: &Phrase,
    at: usize,
    holds: bool,
    all: &mut Vec<Condition>,
) -> Result<Option<usize>, NoMemory> {
    let Some(n) = console_of(phrase.at(at.saturating_add(1))) else {
        return Ok(None);
    };
    let Some(text) = quoted_text(phrase.at(at.saturating_add(2))) else {
        return Ok(None);
    };
    all.push(Condition {
        holds,
        fact: Fact::Shows(n, Bytes::from_slice(alloc, text)?),
    })?;
    Ok(Some(at.saturating_add(3)))
}

// The text between the quotes of a word: at least one printable character of ASCII, and no quote.
fn quoted_text(word: &[u8]) -> Option<&[u8]> {
    let (first, rest) = word.split_first()?;
    let (last, text) = rest.split_last()?;
    if *first != b'"' || *last != b'"' || text.is_empty() {
        return None;
    }
    for b in text {
        if *b < b' ' || b'~' < *b || *b == b'"' {
            return None;
        }
    }
    Some(text)
}
