//! Names that stand for several facts, such as a refusal, each as its conditions.
use crate::facts::{caller_of, console_of};
use crate::patterns::{add, call_at, error_number};
use crate::phrase::Phrase;
use vt_base::{CallerNo, ConsoleNo, NoMemory, ShortList, parse_decimal};
use vt_events::Kind;
use vt_explore::{AnswerKind, AnswerPattern, CallPattern, Condition, Fact};

/// Adds the facts of the name at this place. Returns the place behind it, if there is a name.
pub(crate) fn name_at(
    phrase: &Phrase,
    at: usize,
    all: &mut Vec<Condition>,
) -> Result<Option<usize>, NoMemory> {
    let next = at.saturating_add(1);
    let last = at.saturating_add(2);
    if phrase.has(at, b"waits") {
        let Some(p) = caller_of(phrase.at(next)) else {
            return Ok(None);
        };
        add_wait(all, p)?;
        return Ok(Some(last));
    }
    if phrase.has(at, b"ends") {
        let Some(n) = console_of(phrase.at(next)) else {
            return Ok(None);
        };
        all.push(yes(Fact::Ended))?;
        all.push(yes(Fact::Front(n)))?;
        return Ok(Some(last));
    }
    if phrase.has(at, b"refused") {
        return refusal_at(phrase, next, all);
    }
    hidden_at(phrase, at, all)
}

fn yes(fact: Fact) -> Condition {
    Condition { holds: true, fact }
}

fn no(fact: Fact) -> Condition {
    Condition { holds: false, fact }
}

// `waits P`: the idle rule ended a wait of P.
fn add_wait(all: &mut Vec<Condition>, p: CallerNo) -> Result<(), NoMemory> {
    all.push(yes(Fact::By(p)))?;
    all.push(yes(call_of(Kind::WaitEnd)))?;
    all.push(yes(error(Some(4))))?;
    all.push(no(Fact::Signals(p, None)))?;
    Ok(())
}

// A call of this kind.
fn call_of(kind: Kind) -> Fact {
    Fact::Call(CallPattern {
        kind,
        numbers: ShortList::new(),
    })
}

// An error, with this number if one is given.
fn error(number: Option<u64>) -> Fact {
    let mut numbers = ShortList::new();
    if let Some(number) = number {
        add(&mut numbers, 0, number);
    }
    Fact::Answer(AnswerPattern {
        kind: AnswerKind::Err,
        numbers,
    })
}

// `refused P [ERRNO [CALL]]`: P is answered by an error, by this one, at such a call.
fn refusal_at(
    phrase: &Phrase,
    at: usize,
    all: &mut Vec<Condition>,
) -> Result<Option<usize>, NoMemory> {
    let Some(p) = caller_of(phrase.at(at)) else {
        return Ok(None);
    };
    let next = at.saturating_add(1);
    all.push(yes(Fact::By(p)))?;
    if phrase.ends(next) {
        all.push(yes(error(None)))?;
        return Ok(Some(next));
    }
    let Some(number) = number_of_error(phrase.at(next)) else {
        return Ok(None);
    };
    all.push(yes(error(Some(number))))?;
    let last = at.saturating_add(2);
    if phrase.ends(last) {
        return Ok(Some(last));
    }
    let Some((pattern, end)) = call_at(phrase, last) else {
        return Ok(None);
    };
    all.push(yes(Fact::Call(pattern)))?;
    Ok(Some(end))
}

// The number of an error, by its name or in decimal.
fn number_of_error(word: &[u8]) -> Option<u64> {
    match error_number(word) {
        Some(number) => Some(number),
        None => parse_decimal(word, 65_535),
    }
}

// `blind P N`: P writes while console N isn't in front. `false-ack P N`: P acknowledges the display while
// console N isn't in front.
fn hidden_at(
    phrase: &Phrase,
    at: usize,
    all: &mut Vec<Condition>,
) -> Result<Option<usize>, NoMemory> {
    let (call, answer) = if phrase.has(at, b"blind") {
        (call_of(Kind::Write), AnswerKind::Num)
    } else if phrase.has(at, b"false-ack") {
        (acknowledgement(), AnswerKind::Done)
    } else {
        return Ok(None);
    };
    let Some(p) = caller_of(phrase.at(at.saturating_add(1))) else {
        return Ok(None);
    };
    let Some(n) = console_of(phrase.at(at.saturating_add(2))) else {
        return Ok(None);
    };
    add_hidden(all, call, answer, p, n)?;
    Ok(Some(at.saturating_add(3)))
}

// `call reldisp * 2`
fn acknowledgement() -> Fact {
    let mut numbers = ShortList::new();
    add(&mut numbers, 1, 2);
    Fact::Call(CallPattern {
        kind: Kind::RelDisp,
        numbers,
    })
}

fn add_hidden(
    all: &mut Vec<Condition>,
    call: Fact,
    answer: AnswerKind,
    p: CallerNo,
    n: ConsoleNo,
) -> Result<(), NoMemory> {
    all.push(yes(Fact::By(p)))?;
    all.push(yes(call))?;
    all.push(yes(Fact::Answer(AnswerPattern {
        kind: answer,
        numbers: ShortList::new(),
    })))?;
    all.push(no(Fact::Front(n)))?;
    Ok(())
}
