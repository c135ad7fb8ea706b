//! Patterns of calls and of answers.
ghost use Rattle.std.specs.Prelude.{◌≡◌, ◌↔◌, IsTrue};
ghost use Rattle.vt_events.specs.Plain.{plain_reply};
ghost use Rattle.vt_explore.specs.Facts.{answer_numbers, are_equal, fits, fits_answer, fits_call, has_number, is_answer};

use vt_base::ShortList;
use vt_events::{Event, Kind, MOST_NUMBERS, Parts, Reply};

/// A number at a place, from 0.
#[derive(Clone, Copy, Default)]
pub struct NumberAt {
    pub place: u8,
    pub number: u64,
}

/// Calls of a kind with these numbers; any other number, and the bytes, may be any.
#[derive(Drop)]
pub struct CallPattern {
    pub kind: Kind,
    pub numbers: ShortList<NumberAt, MOST_NUMBERS>,
}

/// The name of an answer.
#[derive(Clone, Copy, PartialEq, Eq)]
pub enum AnswerKind {
    Done,
    Num,
    State,
    Bytes,
    Mode,
    Act,
    Wait,
    Sigs,
    Err,
}

/// Answers of a name with these numbers; any other number, and the bytes, may be any.
#[derive(Drop)]
pub struct AnswerPattern {
    pub kind: AnswerKind,
    pub numbers: ShortList<NumberAt, MOST_NUMBERS>,
}

/// Whether the call fits the pattern.
pub(crate) fn fits_call(pattern: &CallPattern, event: &Event) -> bool
    ensures { result ≡ fits_call pattern.now event.now }
{
    let parts = Parts::of(event);
    are_equal(pattern.kind.name(), parts.kind().name())
        && call_fits(pattern.numbers.as_slice(), parts.numbers())
}

// Whether the numbers of a call are those that are named.
fn call_fits(named: &[NumberAt], numbers: &[u16]) -> bool
    ensures { result ≡ fits named.now numbers.now }
{
    named.iter().all(|n| call_has(numbers, n))
}

// Whether a call has this number at its place.
fn call_has(numbers: &[u16], n: &NumberAt) -> bool
    ensures { result ≡ has_number numbers.now n.now }
{
    match numbers.get(usize::from(n.place)) {
        Some(number) => u64::from(*number) == n.number,
        None => false,
    }
}

/// Whether the answer fits the pattern.
pub(crate) fn fits_answer(pattern: &AnswerPattern, reply: &Reply) -> bool
    ensures { result ≡ fits_answer pattern.now (plain_reply reply.now) }
{
    let numbers = answer_numbers(reply);
    is_answer(pattern.kind, reply) && answer_fits(pattern.numbers.as_slice(), numbers.as_slice())
}

// Whether the numbers of an answer are those that are named.
fn answer_fits(named: &[NumberAt], numbers: &[u64]) -> bool
    ensures { result ≡ fits named.now numbers.now }
{
    named.iter().all(|n| answer_has(numbers, n))
}

// Whether an answer has this number at its place.
fn answer_has(numbers: &[u64], n: &NumberAt) -> bool
    ensures { result ≡ has_number numbers.now n.now }
{
    match numbers.get(usize::from(n.place)) {
        Some(number) => *number == n.number,
        None => false,
    }
}

// Whether the answer has this name.
fn is_answer(kind: AnswerKind, reply: &Reply) -> bool
    ensures { result ≡ is_answer kind (plain_reply reply.now) }
{
    match reply {
        Reply::Done => matches!(kind, AnswerKind::Done),
        Reply::Num(_) => matches!(kind, AnswerKind::Num),
        Reply::State { .. } => matches!(kind, AnswerKind::State),
        Reply::Text(_) => matches!(kind, AnswerKind::Bytes),
        Reply::Mode(_) => matches!(kind, AnswerKind::Mode),
        Reply::Act { .. } => matches!(kind, AnswerKind::Act),
        Reply::Wait => matches!(kind, AnswerKind::Wait),
        Reply::Sigs(_) => matches!(kind, AnswerKind::Sigs),
        Reply::Err(_) => matches!(kind, AnswerKind::Err),
    }
}

// The numbers of an answer in the order of its words.
fn answer_numbers(reply: &Reply) -> ShortList<u64, MOST_NUMBERS>
    ensures { result ≡ answer_numbers (plain_reply reply.now) }
{
    let mut numbers = ShortList::new();
    match reply {
        Reply::Num(n) => numbers.push(u64::from(*n)),
        Reply::State { front, mask } => {
            numbers.push(u64::from(*front));
            numbers.push(*mask);
        }
        Reply::Mode(mode) => {
            numbers.push(u64::from(mode.mode));
            numbers.push(u64::from(mode.waitv));
            numbers.push(u64::from(mode.relsig));
            numbers.push(u64::from(mode.acqsig));
            numbers.push(u64::from(mode.frsig));
        }
        Reply::Act { kind, value } => {
            numbers.push(u64::from(*kind));
            numbers.push(u64::from(*value));
        }
        Reply::Sigs(signals) => numbers.push(signals.bits()),
        Reply::Err(errno) => numbers.push(u64::from(errno.number())),
        _ => {}
    }
    numbers
}

// Whether both names have the same bytes.
fn are_equal(name: &[u8], other: &[u8]) -> bool
    ensures { result ≡ are_equal name.now other.now }
{
    is_same_name(name, other)
}

// Whether both names are the same.
fn is_same_name(name: &[u8], other: &[u8]) -> bool
    ensures { IsTrue result ↔ (name.now ≡ other.now) }
{
    name == other
}
