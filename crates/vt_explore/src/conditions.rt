//! Questions that are made of facts.
ghost use Rattle.std.specs.List.{list_all, list_any, range_with_len};
ghost use Rattle.std.specs.Prelude.{◌≡◌, ◌&&◌, ◌||◌, not, is_some};
ghost use Rattle.vt_base.specs.Limits.{callers};
ghost use Rattle.vt_events.specs.Plain.{plain_reply};
ghost use Rattle.vt_explore.specs.Facts.{fact_holds, has_this, is_ended, is_met, is_stuck, is_this, wants_of};
ghost use Rattle.vt_procs.specs.Callers.{is_live};

use crate::pattern::{fits_answer, fits_call};
use crate::shows::shows;
use crate::{Condition, Fact, Question};
use std::marker::Model;
use vt_base::{CallerNo, ConsoleNo, SigSet, Signal};
use vt_events::{Event, Reply};
use vt_world::World;

/// A question that asks for the calls that meet all of these conditions.
#[derive(Drop)]
pub struct Conditions {
    all: Vec<Condition>,
}

impl Model for Conditions {
    ghost use Rattle.std.specs.Prelude.{List};
    ghost use Rattle.vt_explore.specs.declared.fact.Condition.{Condition};

    ghost Value = { List Condition };

    ghost view = { λ c. c.all.items };
}

impl Conditions {
    /// All of these conditions.
    pub fn of(all: Vec<Condition>) -> Conditions
        ensures { result ≡ all.items }
    {
        Conditions { all }
    }

    /// The conditions in order.
    pub fn as_slice(&self) -> &[Condition]
        ensures { result.now ≡ self.now }
    {
        self.all.as_slice()
    }
}

impl Question for Conditions {
    ghost use Rattle.vt_explore.specs.Facts.{wants_of};

    ghost wants = { λ conditions. wants_of conditions };

    fn asks(&self, caller: CallerNo, event: &Event, reply: &Reply, after: &World) -> bool
        ensures { result ≡ wants_of self.now caller event.now (plain_reply reply.now) after.now }
    {
        are_met(self.all.as_slice(), caller, event, reply, after)
    }
}

// Whether all conditions are met.
fn are_met(
    conditions: &[Condition],
    caller: CallerNo,
    event: &Event,
    reply: &Reply,
    after: &World,
) -> bool
    ensures { result
        ≡ list_all (is_met caller event.now (plain_reply reply.now) after.now) conditions.now }
{
    conditions
        .iter()
        .all(|condition| is_met(caller, event, reply, after, condition))
}

// Whether the condition is met.
fn is_met(
    caller: CallerNo,
    event: &Event,
    reply: &Reply,
    after: &World,
    condition: &Condition,
) -> bool
    ensures { result ≡ is_met caller event.now (plain_reply reply.now) after.now condition.now }
{
    let fact = fact_holds(&condition.fact, caller, event, reply, after);
    if condition.holds { fact } else { !fact }
}

// Whether the fact holds.
fn fact_holds(fact: &Fact, caller: CallerNo, event: &Event, reply: &Reply, after: &World) -> bool
    ensures { result ≡ fact_holds fact.now caller event.now (plain_reply reply.now) after.now }
{
    match fact {
        Fact::By(q) => caller == *q,
        Fact::Call(pattern) => fits_call(pattern, event),
        Fact::Answer(pattern) => fits_answer(pattern, reply),
        Fact::Front(n) => after.display() == *n,
        Fact::Pending(n) => is_this_console(*n, after.pending_console()),
        Fact::Graphics(n) => after.graphics(*n),
        Fact::Owner(n, q) => is_this_caller(*q, after.owner(*n)),
        Fact::Locked => after.locked(),
        Fact::Lives(q) => after.live(*q),
        Fact::Waiting(q) => after.waiting(*q),
        Fact::Signals(q, s) => has_this(*s, after.signals_of(*q)),
        Fact::Open(q, n) => after.has_open(*q, *n),
        Fact::Shows(n, text) => shows(after, *n, text.as_slice()),
        Fact::Ended => is_ended(after),
        Fact::Stuck => is_stuck(after),
    }
}

// Whether there is a console, and it is this one if one is asked for.
fn is_this_console(n: Option<ConsoleNo>, found: Option<ConsoleNo>) -> bool
    ensures { result ≡ is_this n found }
{
    match (n, found) {
        (_, None) => false,
        (None, Some(_)) => true,
        (Some(n), Some(found)) => found == n,
    }
}

// Whether there is a caller, and it is this one if one is asked for.
fn is_this_caller(p: Option<CallerNo>, found: Option<CallerNo>) -> bool
    ensures { result ≡ is_this p found }
{
    match (p, found) {
        (_, None) => false,
        (None, Some(_)) => true,
        (Some(p), Some(found)) => found == p,
    }
}

// Whether the signal is in the set, or any if none is asked for.
fn has_this(s: Option<Signal>, set: SigSet) -> bool
    ensures { result ≡ has_this s set }
{
    match s {
        Some(s) => set.has(s),
        None => set.bits() != 0,
    }
}

// Whether nobody is alive.
fn is_ended(after: &World) -> bool
    ensures { result ≡ is_ended after.now }
{
    let callers = CallerNo::all();
    !any_lives(after, &callers)
}

// Whether one of these callers is alive.
fn any_lives(after: &World, callers: &[CallerNo]) -> bool
    ensures { result ≡ list_any (is_live after.now.callers) callers.now }
{
    callers.iter().any(|p| lives(after, p))
}

fn lives(after: &World, p: &CallerNo) -> bool
    ensures { result ≡ is_live after.now.callers p.now }
{
    after.live(*p)
}

// Whether nobody is alive, and either a console waits for the display or the one in front shows graphics.
fn is_stuck(after: &World) -> bool
    ensures { result ≡ is_stuck after.now }
{
    is_ended(after) && (after.pending_console().is_some() || after.graphics(after.display()))
}
