//! Conditions as words, without names.
use crate::adding::{add, add_caller, add_number};
use std::alloc::Global;
use vt_base::{Bytes, CallerNo, ConsoleNo, NoMemory};
use vt_explore::{AnswerKind, AnswerPattern, CallPattern, Condition, Fact, NumberAt};

/// Adds the conditions, with `and` between them.
pub(crate) fn add_conditions(
    alloc: Global,
    text: &mut Bytes,
    conditions: &[Condition],
) -> Result<(), NoMemory> {
    let mut first = true;
    for condition in conditions {
        if !first {
            add(alloc, text, b" and ")?;
        }
        first = false;
        if !condition.holds {
            add(alloc, text, b"not ")?;
        }
        add_fact(alloc, text, &condition.fact)?;
    }
    Ok(())
}

fn add_fact(alloc: Global, text: &mut Bytes, fact: &Fact) -> Result<(), NoMemory> {
    match fact {
        Fact::By(p) => add_with_caller(alloc, text, b"by ", *p),
        Fact::Call(pattern) => add_call(alloc, text, pattern),
        Fact::Answer(pattern) => add_answer(alloc, text, pattern),
        Fact::Front(n) => add_with_console(alloc, text, b"front ", *n),
        Fact::Pending(Some(n)) => add_with_console(alloc, text, b"pending ", *n),
        Fact::Pending(None) => add(alloc, text, b"pending"),
        Fact::Graphics(n) => add_with_console(alloc, text, b"graphics ", *n),
        Fact::Owner(n, p) => add_owner(alloc, text, *n, *p),
        Fact::Locked => add(alloc, text, b"locked"),
        Fact::Lives(p) => add_with_caller(alloc, text, b"lives ", *p),
        Fact::Waiting(p) => add_with_caller(alloc, text, b"waiting ", *p),
        Fact::Signals(p, None) => add_with_caller(alloc, text, b"signals ", *p),
        Fact::Signals(p, Some(s)) => {
            add_with_caller(alloc, text, b"signals ", *p)?;
            add_next(alloc, text, u64::from(s.get()))
        }
        Fact::Open(p, n) => {
            add_with_caller(alloc, text, b"open ", *p)?;
            add_next(alloc, text, u64::from(n.get()))
        }
        Fact::Shows(n, shown) => {
            add_with_console(alloc, text, b"shows ", *n)?;
            add(alloc, text, b" \"")?;
            add(alloc, text, shown.as_slice())?;
            add(alloc, text, b"\"")
        }
        Fact::Ended => add(alloc, text, b"ended"),
        Fact::Stuck => add(alloc, text, b"stuck"),
    }
}

fn add_with_caller(
    alloc: Global,
    text: &mut Bytes,
    word: &[u8],
    p: CallerNo,
) -> Result<(), NoMemory> {
    add(alloc, text, word)?;
    add_caller(alloc, text, p)
}

fn add_with_console(
    alloc: Global,
    text: &mut Bytes,
    word: &[u8],
    n: ConsoleNo,
) -> Result<(), NoMemory> {
    add(alloc, text, word)?;
    add_number(alloc, text, u64::from(n.get()))
}

fn add_owner(
    alloc: Global,
    text: &mut Bytes,
    n: ConsoleNo,
    p: Option<CallerNo>,
) -> Result<(), NoMemory> {
    add_with_console(alloc, text, b"owner ", n)?;
    match p {
        Some(p) => add_with_caller(alloc, text, b" ", p),
        None => Ok(()),
    }
}

fn add_next(alloc: Global, text: &mut Bytes, n: u64) -> Result<(), NoMemory> {
    add(alloc, text, b" ")?;
    add_number(alloc, text, n)
}

fn add_call(alloc: Global, text: &mut Bytes, pattern: &CallPattern) -> Result<(), NoMemory> {
    add(alloc, text, b"call ")?;
    add(alloc, text, pattern.kind.name())?;
    add_numbers(
        alloc,
        text,
        pattern.numbers.as_slice(),
        pattern.kind.count(),
    )?;
    if pattern.kind.holds_bytes() {
        add(alloc, text, b" *")?;
    }
    Ok(())
}

fn add_answer(alloc: Global, text: &mut Bytes, pattern: &AnswerPattern) -> Result<(), NoMemory> {
    let (name, count): (&[u8], usize) = match pattern.kind {
        AnswerKind::Done => (b"ok", 0),
        AnswerKind::Num => (b"num", 1),
        AnswerKind::State => (b"state", 2),
        AnswerKind::Bytes => (b"bytes *", 0),
        AnswerKind::Mode => (b"mode", 5),
        AnswerKind::Act => (b"act", 2),
        AnswerKind::Wait => (b"wait", 0),
        AnswerKind::Sigs => (b"sigs", 1),
        AnswerKind::Err => (b"err", 1),
    };
    add(alloc, text, b"= ")?;
    add(alloc, text, name)?;
    add_numbers(alloc, text, pattern.numbers.as_slice(), count)
}

// Adds so many words: a number that is named, or `*`.
fn add_numbers(
    alloc: Global,
    text: &mut Bytes,
    named: &[NumberAt],
    count: usize,
) -> Result<(), NoMemory> {
    for place in 0..count {
        match number_at(named, place) {
            Some(number) => add_next(alloc, text, number)?,
            None => add(alloc, text, b" *")?,
        }
    }
    Ok(())
}

fn number_at(named: &[NumberAt], place: usize) -> Option<u64> {
    for n in named {
        if usize::from(n.place) == place {
            return Some(n.number);
        }
    }
    None
}
