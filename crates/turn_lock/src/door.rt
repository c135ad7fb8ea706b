//! The door: a caller that finds the lock taken waits here before it draws a ticket. The rule of its
//! counts is proved (`specs/Door.antt`). No clause states which caller is called in:
//! docs/library/lock.md has the argument that no caller sleeps there for ever.
ghost use Rattle.std.specs.Prelude.{◌≡◌, ◌≤◌, true};
ghost use Rattle.turn_lock.specs.Visits.{HasCome, WaitsAt};

use crate::bells::{BELLS, Bells, Rung};
use crate::counts::{
    Arrive, CALLED, CAME, CallIn, ComeIn, Counts, DrawNumber, ENTERED, LookForCall, ReadCame,
    ReadEntered,
};
use crate::visitor::Visitor;
use atomic_table::Table;
use std::alloc::Global;
use std::sync::Wait;
use std::sync::atomic::AtomicU64;
use std::sync::atomic::Ordering::SeqCst;
use vt_base::NoMemory;

/// How many turns the others have after a caller was called in, until they stand aside for it.
const TURNS: u64 = 128;

/// That a caller looked whether it has to call one in, and did so. [`Door::call`] alone makes one.
#[derive(Drop)]
pub struct Looked {
    rung: Option<Rung>,
}

/// Each caller that comes to the door draws a number. Callers are called in by their numbers, one at a
/// time: the next one when the last one has come in.
#[derive(Drop)]
pub(crate) struct Door {
    pub(crate) counts: Counts,
    /// The ticket that was served when the last caller was called in.
    since: AtomicU64,
    bells: Bells<BELLS>,
    ghost sized: { counts.shared.table_id.words ≡ 3 },
}

impl Door {
    pub(crate) fn hang(alloc: Global) -> Result<Door, NoMemory> {
        let bells = Bells::hang(alloc)?;
        let (counts, _seat) = Table::of_words(alloc, &[0, 0, 0], &())?;
        Ok(Door {
            counts,
            since: AtomicU64::new(0),
            bells,
        })
    }

    /// A caller that came to the door, with the next number.
    pub(crate) fn visit(&self) -> Visitor
        ensures door { result.seat.table_id ≡ self.now.counts.shared.table_id }
        ensures waits { WaitsAt result }
    {
        let (_, mut seat) = self.counts.shared.load_new_seat::<Arrive>(CAME);
        let number = self
            .counts
            .shared
            .fetch_add::<DrawNumber>(&mut seat, CAME, 1);
        Visitor { seat, number }
    }

    /// Waits until this caller is called in, and comes in.
    pub(crate) fn wait<R: Wait>(&self, rt: &R, visitor: &mut Visitor)
        requires door { visitor.old.seat.table_id ≡ self.now.counts.shared.table_id }
        requires waits { WaitsAt visitor.old }
        ensures { HasCome visitor.new }
    {
        let number = visitor.number;
        for _ in rt.forever() {
            // A wait is announced before the look, so the bell can't ring between the two unheard.
            let key = self.bells.announced(number);
            let called = self
                .counts
                .shared
                .load::<LookForCall>(&mut visitor.seat, CALLED);
            if called > number {
                self.counts
                    .shared
                    .fetch_add::<ComeIn>(&mut visitor.seat, ENTERED, 1);
                return;
            }
            key.wait(rt);
        }
        unreachable!()
    }

    /// The ticket that was served when the last caller was called in.
    pub(crate) fn since(&self) -> u64 {
        self.since.load(SeqCst)
    }

    /// Whether a caller that was called in is still on its way so many turns later that the others stand
    /// aside for it.
    pub(crate) fn is_due(&self, turns: u64) -> bool
        ensures { result ≡ true → 128 ≤ turns }
    {
        let counts = &self.counts.shared;
        turns >= TURNS && counts.peek(CALLED) != counts.peek(ENTERED)
    }

    /// Calls in the caller that came first, unless one that was called in is still on its way. `served` is
    /// the ticket that is served.
    pub(crate) fn call(&self, served: u64) -> Looked {
        let counts = &self.counts.shared;
        let called = counts.peek(CALLED);
        let (entered, mut seat) = counts.load_new_seat::<ReadEntered>(ENTERED);
        if called != entered || called == counts.load::<ReadCame>(&mut seat, CAME) {
            return Looked { rung: None };
        }
        let next = called.wrapping_add(1);
        if counts.compare_exchange::<CallIn>(&mut seat, CALLED, called, next) == called {
            self.since.store(served, SeqCst);
            let rung = Some(self.bells.ring(called));
            return Looked { rung };
        }
        Looked { rung: None }
    }
}
