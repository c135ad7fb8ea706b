ghost use Rattle.std.specs.Prelude.{◌≡◌, ◌≤◌, ◌+◌, ◌<◌, List, [], Option, Some, length, IfOk, IsTrue, OnOk};
ghost use Rattle.vt_explore.specs.Positions.{AreSame, HasMade, HaveSameTables, IsAfter};
ghost use Rattle.session_order.specs.Orders.{after_turn};
ghost use Rattle.session_order.specs.Ends.{Setup};
ghost use Rattle.session_order.specs.Serial.{call_now};
ghost use Rattle.session_order.specs.Sessions.{setup_of};
ghost use Rattle.session_text.specs.Programs.{program_of};
ghost use Rattle.vt_events.specs.declared.entry.Entry.{Entry};
ghost use Rattle.vt_events.specs.declared.event.Event.{Event};
ghost use Rattle.vt_world.specs.TableLaws.{sets_tables};

use session_order::{SessionProgress, session_laws, start_of};
use session_text::{Program, Session, program_of};
use std::alloc::Global;
use vt_base::{CallerNo, NoMemory};
use vt_events::{Event, Reply};
use vt_world::World;

/// A machine, and how far each caller of its session is.
#[derive(Drop)]
pub(crate) struct Position {
    pub world: World,
    pub standing: SessionProgress,
    /// Whether a call set the key tables since the start.
    pub tables_set: bool,
}

impl Position {
    /// Before the first call.
    pub(crate) fn start(alloc: Global, s: &Session) -> Result<Position, NoMemory>
        ensures { IfOk result (IsAfter (setup_of s.now) []) }
    {
        session_laws(s);
        let world = start_of(alloc, s)?;
        let standing = SessionProgress::start(alloc)?;
        Ok(Position {
            world,
            standing,
            tables_set: false,
        })
    }

    /// Becomes the other, if both have the same tables unless a call set them.
    pub(crate) fn copy_from(&mut self, alloc: Global, other: &Position) -> Result<(), NoMemory>
        ensures { OnOk result (HaveSameTables self.old other.now → self.new ≡ other.now) }
    {
        if self.tables_set || other.tables_set {
            self.world.copy_from(alloc, &other.world)?;
        } else {
            self.world.copy_beside_tables(alloc, &other.world)?;
        }
        self.standing.copy_from(&other.standing);
        self.tables_set = other.tables_set;
        Ok(())
    }

    /// A turn of the caller of this number.
    pub(crate) fn turn_of(&mut self, alloc: Global, s: &Session, n: u8) -> Result<(), NoMemory>
        ensures { OnOk result ((h : List Entry) → length h < 1_000_000
            → IsAfter (setup_of s.now) h self.old
            → IsAfter (setup_of s.now) (after_turn (setup_of s.now) n h) self.new) }
    {
        session_laws(s);
        let Some(p) = CallerNo::new(u16::from(n)) else {
            return Ok(());
        };
        self.turn(alloc, s.programs(), p)
    }

    // A turn of p.
    fn turn(&mut self, alloc: Global, programs: &[Program], p: CallerNo) -> Result<(), NoMemory>
        ensures { OnOk result ((o : Setup) (h : List Entry) → o.programs ≡ programs.now
            → length h < 1_000_000 → IsAfter o h self.old → IsAfter o (after_turn o p h) self.new) }
    {
        let Some(program) = program_of(programs, p) else {
            return Ok(());
        };
        match self.next(alloc, program, p)? {
            Some(event) => {
                self.make(alloc, program, p, &event)?;
                Ok(())
            }
            None => Ok(()),
        }
    }

    /// The call that p can make: none while it waits, and none if its program is over.
    pub(crate) fn next(
        &self,
        alloc: Global,
        program: &Program,
        p: CallerNo,
    ) -> Result<Option<Event>, NoMemory>
        ensures { IfOk result (λ e. (o : Setup) (h : List Entry)
            → program_of o.programs p ≡ Some program.now → IsAfter o h self.now
            → e ≡ call_now o h p) }
    {
        if self.world.waiting(p) {
            return Ok(None);
        }
        self.standing.walk(p).next(alloc, program)
    }

    /// Whether both are the same, except for the marks of the last call and the numbers of calls, if both have
    /// the same tables unless a call set them. Nothing is proved of the answer `false`.
    pub(crate) fn same(&self, other: &Position) -> bool
        ensures { IsTrue result → HaveSameTables self.now other.now → AreSame self.now other.now }
    {
        if !self.standing.same(&other.standing) {
            return false;
        }
        if self.tables_set || other.tables_set {
            return self.world.same(&other.world);
        }
        self.world.same_beside_tables(&other.world)
    }

    /// p makes its next call.
    pub(crate) fn make(
        &mut self,
        alloc: Global,
        program: &Program,
        p: CallerNo,
        event: &Event,
    ) -> Result<Reply, NoMemory>
        ensures { IfOk result (λ reply. (o : Setup) (h : List Entry)
            → program_of o.programs p ≡ Some program.now → length h ≤ 1_000_000
            → call_now o h p ≡ Some event.now → IsAfter o h self.old
            → HasMade o h p event.now reply self.new) }
    {
        let reply = self.world.call(alloc, p, event)?;
        self.standing.took(p, program, &reply);
        self.standing.forget(p, program);
        self.tables_set = self.tables_set | sets_tables(event);
        Ok(reply)
    }
}

// Whether it is a call that sets an entry, a string or the pairs of the key tables.
fn sets_tables(event: &Event) -> bool
    ensures { result ≡ sets_tables event.now }
{
    matches!(
        event,
        Event::SetEntry(..) | Event::SetFunc(..) | Event::SetDia(..)
    )
}
