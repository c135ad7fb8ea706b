ghost use Rattle.std.specs.Prelude.{◌≡◌, ◌<◌, ◌↔◌, List, [], ◌∷◌, ◌++◌, IfOk, IfSome, IfNone, IsTrue};
ghost use Rattle.vt_events.specs.declared.entry.Entry.{Entry};
ghost use Rattle.vt_free.specs.Judging.{IsAfter};
ghost use Rattle.vt_free.specs.Verdicts.{FailsAt, HasTail, IsFullAt};
ghost use Rattle.vt_journal.specs.Room.{has_room};
ghost use Rattle.vt_world.specs.State.{WorldState};

use crate::counts::no_calls;
use std::alloc::Global;
use vt_base::{CALLERS, NoMemory};
use vt_events::{Entry, charge, same_reply};
use vt_journal::{Full, Limits, Tail};
use vt_world::World;

/// The number of the reason that an entry's number isn't how many calls its caller made before.
const NOT_COUNTED: u8 = 1;

/// The number of the reason that an answer isn't the machine's.
const NOT_ANSWERED: u8 = 3;

/// The least charge of a call, in bytes.
const LEAST_CHARGE: u32 = 64;

/// A machine, how many calls each caller made, and how many entries there were with the sum of their charges.
#[derive(Drop)]
pub(crate) struct FreeJudge {
    pub(crate) world: World,
    pub(crate) made: [u32; CALLERS],
    pub(crate) events: u32,
    pub(crate) bytes: u64,
}

impl FreeJudge {
    /// Nothing is judged yet.
    pub(crate) fn open(start: World) -> FreeJudge
        ensures { IsAfter start [] result }
    {
        FreeJudge {
            world: start,
            made: no_calls(),
            events: 0,
            bytes: 0,
        }
    }

    /// The number of the first reason for which the entry fails. If it passes, the judge takes it.
    pub(crate) fn judge(&mut self, alloc: Global, entry: &Entry) -> Result<Option<u8>, NoMemory>
        requires few { self.old.events < 4_294_967_295 }
        ensures fails { IfOk result (λ why. IfSome why (λ n. (start : WorldState) (h : List Entry)
            → IsAfter start h self.old → FailsAt start h entry.now n)) }
        ensures passes { IfOk result (λ why. IfNone why ((start : WorldState) (h : List Entry)
            → IsAfter start h self.old → IsAfter start (h ++ entry.now ∷ []) self.new)) }
    {
        let at = usize::from(entry.caller.get());
        if entry.seq != self.made[at] {
            return Ok(Some(NOT_COUNTED));
        }
        let reply = self.world.call(alloc, entry.caller, &entry.event)?;
        if !same_reply(&reply, &entry.reply) {
            return Ok(Some(NOT_ANSWERED));
        }
        self.made[at] = self.made[at].saturating_add(1);
        self.events = self.events.saturating_add(1);
        self.bytes = self.bytes.saturating_add(u64::from(charge(&entry.event)));
        Ok(None)
    }

    /// Whether the last line is that of the entries.
    pub(crate) fn has_tail(&self, limits: Limits, end: &Tail) -> bool
        ensures { (start : WorldState) (h : List Entry) → IsAfter start h self.now
            → IsTrue result ↔ HasTail limits h end.now }
    {
        match end {
            Tail::End { events, bytes } => self.has_numbers(*events, *bytes),
            Tail::Full(full) => self.is_full_at(limits, full),
        }
    }

    // Whether a call finds no room, and these are the numbers.
    fn is_full_at(&self, limits: Limits, full: &Full) -> bool
        ensures { (start : WorldState) (h : List Entry) → IsAfter start h self.now
            → IsTrue result ↔ IsFullAt limits h full.now }
    {
        if !self.has_numbers(full.events, full.bytes) {
            return false;
        }
        if full.charge < LEAST_CHARGE {
            return false;
        }
        !self.has_room(limits, full.charge)
    }

    // Whether these are the numbers of entries and of their bytes.
    fn has_numbers(&self, events: u32, bytes: u64) -> bool
        ensures { IsTrue result ↔ ((events ≡ self.now.events) × (bytes ≡ self.now.bytes)) }
    {
        events == self.events && bytes == self.bytes
    }

    // Whether a call of this charge finds room within these limits.
    fn has_room(&self, limits: Limits, charge: u32) -> bool
        ensures { (start : WorldState) (h : List Entry) → IsAfter start h self.now
            → has_room limits h charge ≡ result }
    {
        self.events < limits.events
            && self.bytes <= limits.bytes
            && u64::from(charge) <= limits.bytes - self.bytes
    }
}
