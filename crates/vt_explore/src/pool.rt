//! The machines of a search: new ones are copies of machines that are kept, so that few turns are made again.
ghost use Rattle.std.specs.Prelude.{◌≡◌, ◌<◌, ◌≤◌, IfOk, IfSome, IsTrue, OnOk, length};
ghost use Rattle.session_order.specs.Ends.{Setup};
ghost use Rattle.session_order.specs.Orders.{history_of};
ghost use Rattle.session_order.specs.Sessions.{setup_of};
ghost use Rattle.vt_explore.specs.Alike.{AreAlike};
ghost use Rattle.vt_explore.specs.Held.{AreHeld, Begins, IsHeld, IsPool};

use crate::Order;
use crate::held::Held;
use session_order::session_laws;
use session_text::Session;
use std::alloc::Global;
use std::marker::Model;
use std::mem;
use vt_base::NoMemory;

/// The number of machines along the last order that was opened.
const TRAIL: usize = 8;

/// One of so many machines along an order is kept.
const STEP: usize = 8;

/// The number of machines after the orders that were found last.
const RECENT: usize = 16;

/// Machines that are kept. Which ones depends on no contract: a machine that isn't found is made again.
#[derive(Drop)]
pub(crate) struct Pool {
    start: Held,
    // Those that aren't needed, for their memory.
    spares: Vec<Held>,
    // Those along the last order that was opened, by the numbers of their turns.
    trail: Vec<Held>,
    // Those after the orders that were found last, by the orders' places.
    recent: Vec<Held>,
}

impl Model for Pool {
    ghost use Rattle.vt_explore.specs.Held.{PoolState};

    ghost Value = { PoolState };

    ghost view = { λ p. record {
      start = p.start;
      spares = p.spares.items;
      trail = p.trail.items;
      recent = p.recent.items;
    } };
}

impl Pool {
    /// The machine before the first turn alone.
    pub(crate) fn start(alloc: Global, s: &Session) -> Result<Pool, NoMemory>
        ensures { IfOk result (IsPool (setup_of s.now)) }
    {
        Ok(Pool {
            start: Held::start(alloc, s)?,
            spares: Vec::new(alloc),
            trail: Vec::new(alloc),
            recent: Vec::new(alloc),
        })
    }

    /// The machine before the first turn.
    pub(crate) fn first(&self) -> &Held
        ensures { result.now ≡ self.now.start }
    {
        &self.start
    }

    // A machine after whatever order, which is a new one if none is spare.
    fn take(&mut self, alloc: Global, s: &Session) -> Result<Held, NoMemory>
        requires { IsPool (setup_of s.now) self.old }
        ensures pool { OnOk result (IsPool (setup_of s.now) self.new) }
        ensures at { IfOk result (IsHeld (setup_of s.now)) }
    {
        if let Some(held) = self.spares.pop() {
            return Ok(held);
        }
        Held::start(alloc, s)
    }

    /// A copy.
    pub(crate) fn copy(&mut self, alloc: Global, s: &Session, held: &Held) -> Result<Held, NoMemory>
        requires pool { IsPool (setup_of s.now) self.old }
        requires at { IsHeld (setup_of s.now) held.now }
        ensures pool { OnOk result (IsPool (setup_of s.now) self.new) }
        ensures same { IfOk result (λ copy. copy ≡ held.now) }
    {
        let mut copy = self.take(alloc, s)?;
        copy.copy_from(alloc, held)?;
        Ok(copy)
    }

    /// Keeps a machine for its memory.
    pub(crate) fn give(&mut self, s: &Session, held: Held) -> Result<(), NoMemory>
        requires pool { IsPool (setup_of s.now) self.old }
        requires at { IsHeld (setup_of s.now) held }
        ensures { OnOk result (IsPool (setup_of s.now) self.new) }
    {
        self.spares.push(held)?;
        Ok(())
    }

    /// Keeps the machine after an order that was found, by the order's place.
    pub(crate) fn keep(&mut self, s: &Session, place: usize, held: Held) -> Result<(), NoMemory>
        requires pool { IsPool (setup_of s.now) self.old }
        requires at { IsHeld (setup_of s.now) held }
        ensures { OnOk result (IsPool (setup_of s.now) self.new) }
    {
        match put(&mut self.recent, s, place.wrapping_sub(1) % RECENT, held)? {
            Some(old) => self.give(s, old),
            None => Ok(()),
        }
    }

    // Keeps a machine along the order that is opened.
    fn leave(&mut self, s: &Session, held: Held) -> Result<(), NoMemory>
        requires pool { IsPool (setup_of s.now) self.old }
        requires at { IsHeld (setup_of s.now) held }
        ensures { OnOk result (IsPool (setup_of s.now) self.new) }
    {
        let steps = held.order().len() / STEP;
        match put(&mut self.trail, s, steps.wrapping_sub(1) % TRAIL, held)? {
            Some(old) => self.give(s, old),
            None => Ok(()),
        }
    }

    // A machine that is kept after turns with which the order begins; that after the whole order if it is kept.
    fn nearest(&self, place: usize, order: &Order) -> &Held
        ensures at { (o : Setup) → IsPool o self.now → IsHeld o result.now }
        ensures begins { (o : Setup) → IsPool o self.now → Begins order.now result.now.order }
    {
        if let Some(held) = along(&self.recent, place.wrapping_sub(1) % RECENT, order) {
            return held;
        }
        let steps = order.len() / STEP;
        for back in 0..TRAIL.min(steps) {
            let slot = (steps - back).wrapping_sub(1) % TRAIL;
            if let Some(held) = along(&self.trail, slot, order) {
                return held;
            }
        }
        &self.start
    }

    // The machine after this order, which was found at this place, if it is kept.
    fn recent(&self, place: usize, order: &Order) -> Option<&Held>
        ensures at { IfSome result (λ held. (o : Setup) → IsPool o self.now → IsHeld o held.now) }
        ensures order { IfSome result (λ held. held.now.order ≡ order.now) }
    {
        let Some(held) = along(&self.recent, place.wrapping_sub(1) % RECENT, order) else {
            return None;
        };
        if held.order().same(order) {
            return Some(held);
        }
        None
    }

    // A copy of a machine that is kept after turns with which the order begins.
    fn begin(
        &mut self,
        alloc: Global,
        s: &Session,
        place: usize,
        order: &Order,
    ) -> Result<Held, NoMemory>
        requires { IsPool (setup_of s.now) self.old }
        ensures pool { OnOk result (IsPool (setup_of s.now) self.new) }
        ensures at { IfOk result (IsHeld (setup_of s.now)) }
        ensures begins { IfOk result (λ held. Begins order.now held.order) }
    {
        let mut held = self.take(alloc, s)?;
        held.copy_from(alloc, self.nearest(place, order))?;
        Ok(held)
    }

    /// The machine after this order, which was found at this place. If it `keeps`, it keeps some along it.
    pub(crate) fn after(
        &mut self,
        alloc: Global,
        s: &Session,
        place: usize,
        order: &Order,
        keeps: bool,
    ) -> Result<Held, NoMemory>
        requires { IsPool (setup_of s.now) self.old }
        ensures pool { OnOk result (IsPool (setup_of s.now) self.new) }
        ensures at { IfOk result (IsHeld (setup_of s.now)) }
        ensures order { IfOk result (λ held. held.order ≡ order.now) }
    {
        let turns = order.as_slice();
        let mut held = self.begin(alloc, s, place, order)?;
        let first = held.order().len();
        for k in first..turns.len() {
            held.turn(alloc, s, turns[k])?;
            self.mark(alloc, s, &held, keeps)?;
        }
        Ok(held)
    }

    // Keeps a copy of the machine along the order that is opened, if it stands at a step.
    fn mark(&mut self, alloc: Global, s: &Session, held: &Held, keeps: bool) -> Result<(), NoMemory>
        requires pool { IsPool (setup_of s.now) self.old }
        requires at { IsHeld (setup_of s.now) held.now }
        ensures { OnOk result (IsPool (setup_of s.now) self.new) }
    {
        if !keeps {
            return Ok(());
        }
        if held.order().len() % STEP != 0 {
            return Ok(());
        }
        let copy = self.copy(alloc, s, held)?;
        self.leave(s, copy)
    }

    /// Whether everything goes on alike after the order, which was found at this place, and after that of the
    /// machine. Nothing is proved of the answer `false`.
    pub(crate) fn is_like(
        &mut self,
        alloc: Global,
        s: &Session,
        place: usize,
        order: &Order,
        other: &Held,
    ) -> Result<bool, NoMemory>
        requires pool { IsPool (setup_of s.now) self.old }
        requires at { IsHeld (setup_of s.now) other.now }
        ensures pool { OnOk result (IsPool (setup_of s.now) self.new) }
        ensures like { IfOk result (λ is. IsTrue is
            → AreAlike (setup_of s.now) (history_of (setup_of s.now) order.now)
            (history_of (setup_of s.now) other.now.order)) }
    {
        session_laws(s);
        if let Some(held) = self.recent(place, order) {
            return Ok(held.is_like(other));
        }
        let held = self.after(alloc, s, place, order, false)?;
        let is_like = held.is_like(other);
        self.give(s, held)?;
        Ok(is_like)
    }
}

// The machine in the slot, if the order begins with its turns.
fn along<'a>(all: &'a Vec<Held>, slot: usize, order: &Order) -> Option<&'a Held>
    ensures at { IfSome result (λ held. (o : Setup) → AreHeld o all.now.items → IsHeld o held.now) }
    ensures begins { IfSome result (λ held. Begins order.now held.now.order) }
{
    let Some(held) = all.get(slot) else {
        return None;
    };
    if order.begins_with(held.order()) {
        return Some(held);
    }
    None
}

// Puts the machine into its slot, or at the end if there is no such slot yet. Returns the machine that was there.
fn put(all: &mut Vec<Held>, s: &Session, slot: usize, held: Held) -> Result<Option<Held>, NoMemory>
    requires all { AreHeld (setup_of s.now) all.old.items }
    requires at { IsHeld (setup_of s.now) held }
    ensures all { OnOk result (AreHeld (setup_of s.now) all.new.items) }
    ensures old { IfOk result (λ old. IfSome old (IsHeld (setup_of s.now))) }
{
    if slot < all.len() {
        return Ok(Some(mem::replace(&mut all[slot], held)));
    }
    all.push(held)?;
    Ok(None)
}
