ghost use Rattle.std.specs.Bool.{OnTrue};
ghost use Rattle.std.specs.Prelude.{◌≡◌, ◌<◌, ◌++◌, ℕ, List, [], ◌∷◌, Some, None, IfOk, OnOk, true, false, length, map};
ghost use Rattle.vt_events.specs.Plain.{plain_reply};
ghost use Rattle.vt_explore.specs.Findings.{AddsPassed, AreFoundFor, HasFinding, after_asking, is_for, is_found};
ghost use Rattle.vt_explore.specs.Questions.{Wants};

use crate::{Order, Orders, Question};
use std::alloc::Global;
use std::marker::Model;
use vt_base::{CallerNo, NoMemory};
use vt_events::{Event, Reply};
use vt_world::World;

/// An order that was found for a question, which is named by its place.
#[derive(Drop)]
pub(crate) struct Finding {
    pub question: usize,
    pub order: Order,
}

/// What was found so far. Contracts see the list.
#[derive(Drop)]
pub(crate) struct Findings {
    all: Vec<Finding>,
}

impl Model for Findings {
    ghost use Rattle.std.specs.Prelude.{List};
    ghost use Rattle.vt_explore.specs.declared.findings.Finding.{Finding};

    ghost Value = { List Finding };

    ghost view = { λ f. f.all.items };
}

impl Findings {
    /// Nothing.
    pub(crate) fn none(alloc: Global) -> Findings
        ensures { result ≡ [] }
    {
        Findings {
            all: Vec::new(alloc),
        }
    }

    /// How many there are.
    pub(crate) fn len(&self) -> usize {
        self.all.len()
    }

    /// Whether one is for the question at this place.
    pub(crate) fn has(&self, place: usize) -> bool
        ensures { result ≡ is_found self.now place }
    {
        has(self.all.as_slice(), place)
    }

    /// Whether there is one for each of so many questions.
    pub(crate) fn have_all(&self, count: usize) -> bool
        ensures { OnTrue result ((i : ℕ) → i < count → is_found self.now i ≡ true) }
    {
        for place in 0..count {
            if !self.has(place) {
                return false;
            }
        }
        true
    }

    /// Adds the order for each question that asks for this call and has none.
    pub(crate) fn ask<Q: Question>(
        &mut self,
        alloc: Global,
        questions: &[Q],
        caller: CallerNo,
        event: &Event,
        reply: &Reply,
        after: &World,
        order: &Order,
    ) -> Result<(), NoMemory>
        ensures { OnOk result (AddsPassed (map Q.wants questions.now)
            (λ (wants : Wants). wants caller event.now (plain_reply reply.now) after.now) order.now (length questions.now)
            self.old self.new) }
    {
        for place in 0..questions.len() {
            self.ask_one(
                alloc,
                place,
                &questions[place],
                caller,
                event,
                reply,
                after,
                order,
            )?;
        }
        Ok(())
    }

    // Adds the order for the question at this place, if it asks for this call and has none.
    fn ask_one<Q: Question>(
        &mut self,
        alloc: Global,
        place: usize,
        question: &Q,
        caller: CallerNo,
        event: &Event,
        reply: &Reply,
        after: &World,
        order: &Order,
    ) -> Result<(), NoMemory>
        ensures { OnOk result (self.new ≡ after_asking self.old place
            (Q.wants question.now caller event.now (plain_reply reply.now) after.now) order.now) }
    {
        if !self.has(place) && question.asks(caller, event, reply, after) {
            self.add(alloc, place, order)?;
        }
        Ok(())
    }

    // Adds the order for the question at this place.
    fn add(&mut self, alloc: Global, question: usize, order: &Order) -> Result<(), NoMemory>
        ensures { OnOk result (self.new ≡ self.old ++ record { question = question; order = order.now } ∷ []) }
    {
        let order = order.copy(alloc)?;
        self.all.push(Finding { question, order })?;
        Ok(())
    }

    /// For each of so many questions an order, or none.
    pub(crate) fn orders(&self, alloc: Global, count: usize) -> Result<Orders, NoMemory>
        ensures { IfOk result (AreFoundFor self.now count) }
    {
        let mut orders = Orders::none(alloc);
        for place in 0..count {
            orders.add(self.order_at(alloc, place)?)?;
        }
        Ok(orders)
    }

    // The order for the question at this place.
    fn order_at(&self, alloc: Global, question: usize) -> Result<Option<Order>, NoMemory>
        ensures some { IfOk result (λ found. (order : List ℕ) → found ≡ Some order → HasFinding self.now question order) }
        ensures none { IfOk result (λ found. found ≡ None → is_found self.now question ≡ false) }
    {
        for place in 0..self.all.len() {
            let finding = &self.all[place];
            if finding.question == question {
                return Ok(Some(finding.order.copy(alloc)?));
            }
        }
        Ok(None)
    }
}

// Whether one of these is for the question at this place.
fn has(findings: &[Finding], place: usize) -> bool
    ensures { result ≡ is_found findings.now place }
{
    findings.iter().any(|finding| is_for(place, finding))
}

fn is_for(place: usize, finding: &Finding) -> bool
    ensures { result ≡ is_for place finding.now }
{
    finding.question == place
}
