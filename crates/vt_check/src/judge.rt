ghost use Rattle.std.specs.Prelude.{◌≡◌, ◌↔◌, ◌&&◌, List, [], ◌∷◌, ◌++◌, Some, is_some, IfOk, IfSome, IfNone, IsTrue};
ghost use Rattle.session_order.specs.Ends.{Setup};
ghost use Rattle.session_order.specs.Follows.{IsNextCall, is_waiting};
ghost use Rattle.session_order.specs.Sessions.{setup_of};
ghost use Rattle.session_text.specs.Programs.{program_of};
ghost use Rattle.vt_check.specs.Judging.{IsAfter};
ghost use Rattle.vt_check.specs.Verdicts.{FailsAt, IsCounted};
ghost use Rattle.vt_events.specs.declared.entry.Entry.{Entry};
ghost use Rattle.vt_world.specs.Refusals.{ends_wait};

use session_order::{SessionProgress, session_laws, start_of};
use session_text::{Program, Session, program_of};
use std::alloc::Global;
use vt_base::NoMemory;
use vt_events::{Entry, Event, charge, same_event, same_reply};
use vt_journal::Limits;
use vt_world::World;

/// The number of the reason that the caller isn't one of the session, or the number isn't its next.
const NOT_COUNTED: u8 = 1;

/// The number of the reason that the call isn't the next of its program, or ends a wait that goes on.
const NOT_NEXT: u8 = 2;

/// The number of the reason that the answer isn't the machine's.
const NOT_ANSWERED: u8 = 3;

/// The number of the reason that the journal's limits are passed.
const PAST_LIMITS: u8 = 5;

/// The limits and the programs of a session, a machine, the progress of each caller, how many entries there were
/// and how many bytes they count for.
#[derive(Drop)]
pub(crate) struct Judge<'s> {
    pub(crate) limits: Limits,
    pub(crate) programs: &'s [Program],
    pub(crate) world: World,
    pub(crate) standing: SessionProgress,
    pub(crate) events: u32,
    pub(crate) bytes: u64,
}

impl<'s> Judge<'s> {
    /// Nothing is judged yet.
    pub(crate) fn open(alloc: Global, s: &'s Session) -> Result<Judge<'s>, NoMemory>
        ensures { IfOk result (IsAfter (setup_of s.now) []) }
    {
        session_laws(s);
        let limits = s.limits();
        let programs = s.programs();
        let world = start_of(alloc, s)?;
        let standing = SessionProgress::start(alloc)?;
        Ok(Judge {
            limits,
            programs,
            world,
            standing,
            events: 0,
            bytes: 0,
        })
    }

    /// The number of the first reason for which the entry fails. If it passes, the judge takes it.
    pub(crate) fn judge(&mut self, alloc: Global, entry: &Entry) -> Result<Option<u8>, NoMemory>
        ensures fails { IfOk result (λ why. IfSome why (λ n. (o : Setup) (h : List Entry)
            → IsAfter o h self.old → FailsAt o h entry.now n)) }
        ensures passes { IfOk result (λ why. IfNone why ((o : Setup) (h : List Entry)
            → IsAfter o h self.old → IsAfter o (h ++ entry.now ∷ []) self.new)) }
    {
        let Some(program) = self.counted(entry) else {
            return Ok(Some(NOT_COUNTED));
        };
        if !self.is_next(alloc, program, entry)? {
            return Ok(Some(NOT_NEXT));
        }
        let charge = charge(&entry.event);
        let room = self.has_room(charge);
        let reply = self.world.call(alloc, entry.caller, &entry.event)?;
        if !same_reply(&reply, &entry.reply) {
            return Ok(Some(NOT_ANSWERED));
        }
        if !room {
            return Ok(Some(PAST_LIMITS));
        }
        self.standing.took(entry.caller, program, &entry.reply);
        self.events += 1;
        self.bytes += u64::from(charge);
        Ok(None)
    }

    // The program of the entry's caller, if it has one and the number counts its calls.
    fn counted(&self, entry: &Entry) -> Option<&'s Program>
        ensures counted { (o : Setup) (h : List Entry) → IsAfter o h self.now
            → IsTrue (is_some result) ↔ IsCounted o h entry.now }
        ensures program { IfSome result
            (λ program. program_of self.now.programs.now entry.now.caller ≡ Some program.now) }
    {
        if entry.seq != self.standing.count(entry.caller) {
            return None;
        }
        program_of(self.programs, entry.caller)
    }

    // Whether the call is the next of its caller's program, and ends no wait that goes on.
    fn is_next(&self, alloc: Global, program: &Program, entry: &Entry) -> Result<bool, NoMemory>
        requires { program_of self.now.programs.now entry.now.caller ≡ Some program.now }
        ensures { IfOk result (λ is. (o : Setup) (h : List Entry) → IsAfter o h self.now
            → IsTrue is ↔ IsNextCall o.start o.programs h entry.now) }
    {
        if self.goes_on_waiting(entry) {
            return Ok(false);
        }
        match self.next_of(alloc, program, entry.caller)? {
            Some(call) => Ok(same_event(&call, &entry.event)),
            None => Ok(false),
        }
    }

    // Whether the call would end a wait that goes on.
    fn goes_on_waiting(&self, entry: &Entry) -> bool
        ensures { result
            ≡ (ends_wait entry.now.event && is_waiting self.now.world entry.now.caller) }
    {
        matches!(entry.event, Event::WaitEnd) && self.world.waiting(entry.caller)
    }
}
