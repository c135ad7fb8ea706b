//! The text of the answers.
use crate::adding::{add, add_escaped, add_number};
use crate::calls::add_calls;
use crate::options::Options;
use crate::questions::last_displays;
use crate::spelling::add_conditions;
use session_text::Session;
use std::alloc::Global;
use vt_base::{Bytes, NoMemory};
use vt_explore::{Conditions, End, Order, Outcome, Progress, explore};

/// Answers the questions, and adds the text of the answers. Without a question it adds an order for each
/// console that can have the display at the end.
pub(crate) fn add_answers<P: Progress>(
    alloc: Global,
    text: &mut Bytes,
    options: &Options,
    s: &Session,
    questions: &[Conditions],
    progress: &mut P,
) -> Result<(), NoMemory> {
    if questions.is_empty() {
        let displays = last_displays(alloc)?;
        let outcome = explore(
            alloc,
            s,
            displays.as_slice(),
            options.states,
            true,
            progress,
        )?;
        add_each(
            alloc,
            text,
            options.json,
            s,
            displays.as_slice(),
            &outcome,
            true,
        )?;
        return add_counts(alloc, text, options.json, &outcome);
    }
    let outcome = explore(alloc, s, questions, options.states, false, progress)?;
    add_each(alloc, text, options.json, s, questions, &outcome, false)?;
    add_counts(alloc, text, options.json, &outcome)
}

// Adds the answer to each question, or only those that were found.
fn add_each(
    alloc: Global,
    text: &mut Bytes,
    json: bool,
    s: &Session,
    questions: &[Conditions],
    outcome: &Outcome,
    only_found: bool,
) -> Result<(), NoMemory> {
    let found = outcome.found.as_slice();
    for i in 0..questions.len() {
        let order = match found.get(i) {
            Some(order) => order.as_ref(),
            None => None,
        };
        if order.is_none() && only_found {
            continue;
        }
        let word = name_of(order, outcome.end);
        if json {
            add_object(alloc, text, s, word, &questions[i], order)?;
        } else {
            add_lines(alloc, text, s, word, &questions[i], order)?;
        }
    }
    Ok(())
}

// The word of an answer.
fn name_of(order: Option<&Order>, end: End) -> &'static [u8] {
    match (order, end) {
        (Some(_), _) => b"found",
        (None, End::Whole) => b"never",
        (None, _) => b"limit",
    }
}

fn add_lines(
    alloc: Global,
    text: &mut Bytes,
    s: &Session,
    word: &[u8],
    question: &Conditions,
    order: Option<&Order>,
) -> Result<(), NoMemory> {
    add(alloc, text, word)?;
    add(alloc, text, b": ")?;
    add_conditions(alloc, text, question.as_slice())?;
    add(alloc, text, b"\n")?;
    if let Some(order) = order {
        add(alloc, text, b"turns = ")?;
        add_turns(alloc, text, order.as_slice())?;
        add(alloc, text, b"\n")?;
        add_calls(alloc, text, s, order.as_slice(), b"\n")?;
        add(alloc, text, b"\n\n")?;
    }
    Ok(())
}

fn add_object(
    alloc: Global,
    text: &mut Bytes,
    s: &Session,
    word: &[u8],
    question: &Conditions,
    order: Option<&Order>,
) -> Result<(), NoMemory> {
    add(alloc, text, b"{\"answer\":\"")?;
    add(alloc, text, word)?;
    add(alloc, text, b"\",\"question\":\"")?;
    let mut words = Bytes::new(alloc);
    add_conditions(alloc, &mut words, question.as_slice())?;
    add_escaped(alloc, text, words.as_slice())?;
    add(alloc, text, b"\",\"turns\":")?;
    match order {
        Some(order) => {
            add_turns(alloc, text, order.as_slice())?;
            add(alloc, text, b",\"calls\":[\"")?;
            add_calls(alloc, text, s, order.as_slice(), b"\",\"")?;
            add(alloc, text, b"\"]}\n")
        }
        None => add(alloc, text, b"null,\"calls\":null}\n"),
    }
}

// Adds how many states and calls there were, and whether every order was tried.
fn add_counts(
    alloc: Global,
    text: &mut Bytes,
    json: bool,
    outcome: &Outcome,
) -> Result<(), NoMemory> {
    let all = matches!(outcome.end, End::Whole);
    if json {
        add(alloc, text, b"{\"states\":")?;
        add_number(alloc, text, outcome.states as u64)?;
        add(alloc, text, b",\"calls\":")?;
        add_number(alloc, text, outcome.calls)?;
        add(alloc, text, b",\"all\":")?;
        let word: &[u8] = if all { b"true" } else { b"false" };
        add(alloc, text, word)?;
        return add(alloc, text, b"}\n");
    }
    add(alloc, text, b"states: ")?;
    add_number(alloc, text, outcome.states as u64)?;
    add(alloc, text, b"\ncalls: ")?;
    add_number(alloc, text, outcome.calls)?;
    let word: &[u8] = if all {
        b"\norders: all\n"
    } else {
        b"\norders: not all\n"
    };
    add(alloc, text, word)
}

// Adds the turns as a session has them.
fn add_turns(alloc: Global, text: &mut Bytes, order: &[u8]) -> Result<(), NoMemory> {
    add(alloc, text, b"[")?;
    let mut first = true;
    for n in order {
        if !first {
            add(alloc, text, b", ")?;
        }
        first = false;
        add_number(alloc, text, u64::from(*n))?;
    }
    add(alloc, text, b"]")
}
