//! The verdict on the end of a journal.
ghost use Rattle.std.specs.Prelude.{◌≡◌, ◌+◌, ◌≤◌, ◌<◌, ◌↔◌, ℕ, List, Some, IfOk, IfSome, IfNone, IsTrue};
ghost use Rattle.session_order.specs.Calls.{all_over, next_by};
ghost use Rattle.session_order.specs.Ends.{EndsBy, Setup, Stops};
ghost use Rattle.session_text.specs.Programs.{program_of};
ghost use Rattle.vt_check.specs.Judging.{HasCall, IsAfter};
ghost use Rattle.vt_check.specs.Verdicts.{EndFails};
ghost use Rattle.vt_events.specs.declared.entry.Entry.{Entry};
ghost use Rattle.vt_journal.specs.Room.{has_room};

use crate::judge::Judge;
use session_text::{Program, program_of};
use std::alloc::Global;
use vt_base::{CALLERS, CallerNo, NoMemory};
use vt_events::{Event, charge};
use vt_journal::{Full, Tail};

/// The number of the reason that a program isn't over.
const NOT_OVER: u8 = 4;

/// The number of the reason that the last line isn't the end of the history.
const ENDS_OTHERWISE: u8 = 5;

impl<'s> Judge<'s> {
    /// The number of the first reason why the history doesn't end so.
    pub(crate) fn judge_end(&self, alloc: Global, end: &Tail) -> Result<Option<u8>, NoMemory>
        ensures fails { IfOk result (λ why. IfSome why (λ n. (o : Setup) (h : List Entry)
            → IsAfter o h self.now → EndFails o h end.now n)) }
        ensures passes { IfOk result (λ why. IfNone why ((o : Setup) (h : List Entry)
            → IsAfter o h self.now → EndsBy o h end.now)) }
    {
        match end {
            Tail::End { events, bytes } => {
                if !self.are_over(alloc)? {
                    return Ok(Some(NOT_OVER));
                }
                if !self.has_numbers(*events, *bytes) {
                    return Ok(Some(ENDS_OTHERWISE));
                }
                Ok(None)
            }
            Tail::Full(full) => {
                if !self.stops(alloc, full)? {
                    return Ok(Some(ENDS_OTHERWISE));
                }
                Ok(None)
            }
        }
    }

    // Whether these are the numbers of entries and of their bytes.
    fn has_numbers(&self, events: u32, bytes: u64) -> bool
        ensures { IsTrue result
            ↔ ((events ≡ self.now.events) × (bytes ≡ self.now.bytes)) }
    {
        events == self.events && bytes == self.bytes
    }

    // Whether every program is over.
    #[tactic(auto, using(crate::proofs::Overs::one_goes_on))]
    fn are_over(&self, alloc: Global) -> Result<bool, NoMemory>
        ensures { IfOk result (λ are. (o : Setup) (h : List Entry) → IsAfter o h self.now
            → all_over o.programs h ≡ are) }
    {
        for i in 0..CALLERS {
            if self.next(alloc, CallerNo::numbered(i as u16))?.is_some() {
                return Ok(false);
            }
        }
        Ok(true)
    }

    // Whether a caller that doesn't wait has a next call that finds no room, and these are the numbers.
    fn stops(&self, alloc: Global, full: &Full) -> Result<bool, NoMemory>
        ensures { IfOk result (λ is. (o : Setup) (h : List Entry) → IsAfter o h self.now
            → IsTrue is ↔ Stops o h full.now) }
    {
        if !self.has_numbers(full.events, full.bytes) {
            return Ok(false);
        }
        if self.has_room(full.charge) {
            return Ok(false);
        }
        let is_called = self.someone_calls(alloc, full.charge)?;
        Ok(is_called)
    }

    /// Whether a call of this charge finds room.
    pub(crate) fn has_room(&self, charge: u32) -> bool
        ensures room { (o : Setup) (h : List Entry) → IsAfter o h self.now
            → has_room o.limits h charge ≡ result }
        ensures events { IsTrue result → self.now.events < self.now.limits.events }
        ensures bytes { IsTrue result → self.now.bytes + charge ≤ self.now.limits.bytes }
    {
        self.events < self.limits.events
            && self.bytes <= self.limits.bytes
            && u64::from(charge) <= self.limits.bytes - self.bytes
    }

    // Whether a caller that doesn't wait has a next call of this charge.
    fn someone_calls(&self, alloc: Global, charge: u32) -> Result<bool, NoMemory>
        ensures { IfOk result (λ is. (o : Setup) (h : List Entry) → IsAfter o h self.now
            → IsTrue is ↔ ((caller : ℕ) × HasCall o h caller charge)) }
    {
        for i in 0..CALLERS {
            if self.calls(alloc, CallerNo::numbered(i as u16), charge)? {
                return Ok(true);
            }
        }
        Ok(false)
    }

    // Whether the caller doesn't wait, and its next call has this charge.
    fn calls(&self, alloc: Global, p: CallerNo, wanted: u32) -> Result<bool, NoMemory>
        ensures { IfOk result (λ is. (o : Setup) (h : List Entry) → IsAfter o h self.now
            → IsTrue is ↔ HasCall o h p wanted) }
    {
        if self.world.waiting(p) {
            return Ok(false);
        }
        match self.next(alloc, p)? {
            Some(call) => Ok(charge(&call) == wanted),
            None => Ok(false),
        }
    }

    // The next call of the caller, if it has a program that isn't over.
    fn next(&self, alloc: Global, p: CallerNo) -> Result<Option<Event>, NoMemory>
        ensures { IfOk result (λ e. (o : Setup) (h : List Entry) → IsAfter o h self.now
            → e ≡ next_by o.programs p h) }
    {
        match program_of(self.programs, p) {
            Some(program) => self.next_of(alloc, program, p),
            None => Ok(None),
        }
    }

    /// The next call of the caller, which has this program, if the program isn't over.
    pub(crate) fn next_of(
        &self,
        alloc: Global,
        program: &Program,
        p: CallerNo,
    ) -> Result<Option<Event>, NoMemory>
        requires { program_of self.now.programs.now p ≡ Some program.now }
        ensures { IfOk result (λ e. (o : Setup) (h : List Entry) → IsAfter o h self.now
            → e ≡ next_by o.programs p h) }
    {
        let next = self.standing.walk(p).next(alloc, program)?;
        Ok(next)
    }
}
