ghost use Rattle.std.specs.Prelude.{◌≡◌, ◌≤◌, ◌<◌, ◌+◌, ℕ, List, [], ◌∷◌, Some, IsTrue, IfOk, OnOk, option_map, slice_get, length, map};
ghost use Rattle.std.specs.Bool.{OnFalse, OnTrue};
ghost use Rattle.session_order.specs.Orders.{history_of};
ghost use Rattle.session_order.specs.Serial.{call_now};
ghost use Rattle.session_order.specs.Sessions.{setup_of};
ghost use Rattle.session_text.specs.Programs.{program_of};
ghost use Rattle.vt_explore.specs.Alike.{Extends, HasLike};
ghost use Rattle.vt_explore.specs.Held.{IsHeld, IsPool};
ghost use Rattle.vt_explore.specs.Findings.{AddsFound, IsTried};
ghost use Rattle.vt_explore.specs.Searches.{AreSorted, HasCount, IfAll, IfKnown};

use crate::Question;
use crate::findings::Findings;
use crate::held::Held;
use crate::opened::Opened;
use crate::order::{MOST_TURNS, Order};
use crate::places::Places;
use crate::pool::Pool;
use crate::tried::Tried;
use session_order::session_laws;
use session_text::{Program, Session, program_of};
use std::alloc::Global;
use std::marker::Model;
use vt_base::{CALLERS, CallerNo, NoMemory};
use vt_events::Event;

/// The orders that were found to lead to different machines. Contracts see them.
#[derive(Drop)]
pub(crate) struct Search {
    orders: Vec<Order>,
    places: Places,
    // how many calls were tried
    calls: u64,
}

impl Model for Search {
    ghost use Rattle.std.specs.Prelude.{ℕ, List};

    ghost Value = { List (List ℕ) };

    ghost view = { λ s. s.orders.items };
}

impl Search {
    /// The order without turns alone.
    pub(crate) fn start(alloc: Global, s: &Session, pool: &Pool) -> Result<Search, NoMemory>
        ensures { IfOk result (λ search. search ≡ [] ∷ []) }
    {
        let mut places = Places::new(alloc)?;
        places.add(pool.first().position().digest(s))?;
        let mut orders = Vec::new(alloc);
        orders.push(Order::none(alloc))?;
        Ok(Search {
            orders,
            places,
            calls: 0,
        })
    }

    /// The number of orders.
    pub(crate) fn len(&self) -> usize
        ensures { result ≡ length self.now }
    {
        self.orders.len()
    }

    /// How many calls were tried.
    pub(crate) fn calls(&self) -> u64 {
        self.calls
    }

    /// Whether there are at most so many orders.
    pub(crate) fn has_at_most(&self, n: usize) -> bool
        ensures few { OnTrue result (length self.now ≤ n) }
        ensures many { OnFalse result (n < length self.now) }
    {
        self.orders.len() <= n
    }

    /// The order at this place, if there is one.
    pub(crate) fn at(&self, place: usize) -> Option<&Order>
        ensures { option_map (λ order. order.now) result ≡ slice_get self.now place }
    {
        self.orders.get(place)
    }

    /// Tries each call that can be made after the order of this machine, and adds to the findings. It stops when
    /// there are more than `limit` orders.
    pub(crate) fn expand<Q: Question>(
        &mut self,
        alloc: Global,
        s: &Session,
        questions: &[Q],
        limit: usize,
        pool: &mut Pool,
        findings: &mut Findings,
        base: &Held,
    ) -> Result<Opened, NoMemory>
        requires few { length self.now ≤ limit }
        requires pool { IsPool (setup_of s.now) pool.old }
        requires base { IsHeld (setup_of s.now) base.now }
        requires full { length (history_of (setup_of s.now) base.now.order) ≡ length base.now.order }
        requires sorted { AreSorted (setup_of s.now) self.now (length (history_of (setup_of s.now) base.now.order) + 1) }
        ensures pool { OnOk result (IsPool (setup_of s.now) pool.new) }
        ensures grows { OnOk result (Extends self.old self.new) }
        ensures sorted { OnOk result (AreSorted (setup_of s.now) self.new (length (history_of (setup_of s.now) base.now.order) + 1)) }
        ensures found { OnOk result (AddsFound (map Q.wants questions.now) (setup_of s.now) base.now.order findings.old findings.new) }
        ensures known { IfOk result (λ t. IfAll t ((p : ℕ) → IsTried (map Q.wants questions.now) findings.new
            (setup_of s.now) self.new (history_of (setup_of s.now) base.now.order) p)) }
        ensures count { IfOk result (λ t. HasCount t limit (length self.new)) }
    {
        session_laws(s);
        for n in 0..CALLERS as u8 {
            let tried = self.try_caller(alloc, s, questions, pool, findings, base, n)?;
            if !self.has_at_most(limit) {
                return Ok(Opened::Many);
            }
            match tried {
                Tried::Known => {}
                Tried::Full => return Ok(Opened::Long),
            }
        }
        Ok(Opened::All)
    }

    // Tries the call that this caller can make after the order of the machine, if it can make one.
    fn try_caller<Q: Question>(
        &mut self,
        alloc: Global,
        s: &Session,
        questions: &[Q],
        pool: &mut Pool,
        findings: &mut Findings,
        base: &Held,
        n: u8,
    ) -> Result<Tried, NoMemory>
        requires caller { n < 68 }
        requires pool { IsPool (setup_of s.now) pool.old }
        requires base { IsHeld (setup_of s.now) base.now }
        requires full { length (history_of (setup_of s.now) base.now.order) ≡ length base.now.order }
        requires sorted { AreSorted (setup_of s.now) self.now (length (history_of (setup_of s.now) base.now.order) + 1) }
        ensures pool { OnOk result (IsPool (setup_of s.now) pool.new) }
        ensures grows { OnOk result (Extends self.old self.new) }
        ensures sorted { OnOk result (AreSorted (setup_of s.now) self.new (length (history_of (setup_of s.now) base.now.order) + 1)) }
        ensures found { OnOk result (AddsFound (map Q.wants questions.now) (setup_of s.now) base.now.order findings.old findings.new) }
        ensures known { IfOk result (λ t. IfKnown t (IsTried (map Q.wants questions.now) findings.new
            (setup_of s.now) self.new (history_of (setup_of s.now) base.now.order) n)) }
        ensures one { OnOk result (length self.new ≤ length self.old + 1) }
    {
        let p = CallerNo::numbered(u16::from(n));
        let Some(program) = program_of(s.programs(), p) else {
            return Ok(Tried::Known);
        };
        let Some(event) = base.position().next(alloc, program, p)? else {
            return Ok(Tried::Known);
        };
        if MOST_TURNS <= base.order().as_slice().len() {
            return Ok(Tried::Full);
        }
        self.try_call(
            alloc, s, questions, pool, findings, base, p, program, &event,
        )
    }

    // Tries this call, which p can make after the order of the machine.
    fn try_call<Q: Question>(
        &mut self,
        alloc: Global,
        s: &Session,
        questions: &[Q],
        pool: &mut Pool,
        findings: &mut Findings,
        base: &Held,
        p: CallerNo,
        program: &Program,
        event: &Event,
    ) -> Result<Tried, NoMemory>
        requires pool { IsPool (setup_of s.now) pool.old }
        requires base { IsHeld (setup_of s.now) base.now }
        requires full { length (history_of (setup_of s.now) base.now.order) ≡ length base.now.order }
        requires sorted { AreSorted (setup_of s.now) self.now (length (history_of (setup_of s.now) base.now.order) + 1) }
        requires program { program_of (setup_of s.now).programs p ≡ Some program.now }
        requires call { call_now (setup_of s.now) (history_of (setup_of s.now) base.now.order) p ≡ Some event.now }
        requires few { length base.now.order < 1_000_000 }
        ensures pool { OnOk result (IsPool (setup_of s.now) pool.new) }
        ensures grows { OnOk result (Extends self.old self.new) }
        ensures sorted { OnOk result (AreSorted (setup_of s.now) self.new (length (history_of (setup_of s.now) base.now.order) + 1)) }
        ensures found { OnOk result (AddsFound (map Q.wants questions.now) (setup_of s.now) base.now.order findings.old findings.new) }
        ensures known { IfOk result (λ t. IfKnown t (IsTried (map Q.wants questions.now) findings.new
            (setup_of s.now) self.new (history_of (setup_of s.now) base.now.order) p)) }
        ensures one { OnOk result (length self.new ≤ length self.old + 1) }
    {
        let mut held = pool.copy(alloc, s, base)?;
        let reply = held.make(alloc, program, p, event)?;
        let after = &held.position().world;
        findings.ask(alloc, questions, p, event, &reply, after, held.order())?;
        self.enter(alloc, s, pool, held)?;
        self.count();
        Ok(Tried::Known)
    }

    // Counts a call that was tried.
    fn count(&mut self)
        ensures { self.new ≡ self.old }
    {
        self.calls = self.calls.saturating_add(1);
    }

    // Adds the order of this machine, unless such a machine is known.
    fn enter(
        &mut self,
        alloc: Global,
        s: &Session,
        pool: &mut Pool,
        held: Held,
    ) -> Result<(), NoMemory>
        requires pool { IsPool (setup_of s.now) pool.old }
        requires at { IsHeld (setup_of s.now) held }
        requires full { length (history_of (setup_of s.now) held.order) ≡ length held.order }
        requires sorted { AreSorted (setup_of s.now) self.now (length (history_of (setup_of s.now) held.order)) }
        ensures pool { OnOk result (IsPool (setup_of s.now) pool.new) }
        ensures grows { OnOk result (Extends self.old self.new) }
        ensures sorted { OnOk result (AreSorted (setup_of s.now) self.new (length (history_of (setup_of s.now) held.order))) }
        ensures known { OnOk result (HasLike (setup_of s.now) self.new (history_of (setup_of s.now) held.order)) }
        ensures one { OnOk result (length self.new ≤ length self.old + 1) }
    {
        let digest = held.position().digest(s);
        if self.knows(alloc, s, pool, &held, digest)? {
            pool.give(s, held)?;
            return Ok(());
        }
        let order = held.order().copy(alloc)?;
        pool.keep(s, self.orders.len(), held)?;
        self.places.add(digest)?;
        self.orders.push(order)?;
        Ok(())
    }

    // Whether an order is known that leads to such a machine.
    fn knows(
        &self,
        alloc: Global,
        s: &Session,
        pool: &mut Pool,
        held: &Held,
        digest: u64,
    ) -> Result<bool, NoMemory>
        requires pool { IsPool (setup_of s.now) pool.old }
        requires at { IsHeld (setup_of s.now) held.now }
        ensures pool { OnOk result (IsPool (setup_of s.now) pool.new) }
        ensures like { IfOk result (λ is. IsTrue is
            → AreSorted (setup_of s.now) self.now (length (history_of (setup_of s.now) held.now.order))
            → HasLike (setup_of s.now) self.now (history_of (setup_of s.now) held.now.order)) }
    {
        let mut bound = self.orders.len();
        for _step in 0..self.orders.len() {
            let Some(place) = self.places.below(digest, bound) else {
                return Ok(false);
            };
            if self.is_like(alloc, s, pool, held, place)? {
                return Ok(true);
            }
            bound = place;
        }
        Ok(false)
    }

    // Whether the order at this place leads to such a machine.
    fn is_like(
        &self,
        alloc: Global,
        s: &Session,
        pool: &mut Pool,
        held: &Held,
        place: usize,
    ) -> Result<bool, NoMemory>
        requires pool { IsPool (setup_of s.now) pool.old }
        requires at { IsHeld (setup_of s.now) held.now }
        ensures pool { OnOk result (IsPool (setup_of s.now) pool.new) }
        ensures like { IfOk result (λ is. IsTrue is
            → AreSorted (setup_of s.now) self.now (length (history_of (setup_of s.now) held.now.order))
            → HasLike (setup_of s.now) self.now (history_of (setup_of s.now) held.now.order)) }
    {
        let Some(order) = self.orders.get(place) else {
            return Ok(false);
        };
        pool.is_like(alloc, s, place, order, held)
    }
}
