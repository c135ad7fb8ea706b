ghost use Rattle.std.specs.Prelude.{◌≡◌, ◌≤◌, ◌+◌, ◌*◌, ◌/◌, List, ◌∷◌, ℕ, max, None, false, length, IfOk, slice_set, count_by};
ghost use Rattle.vt_events.specs.declared.entry.Entry.{Entry};
ghost use Rattle.vt_events.specs.declared.event.Event.TheVariants as event;
ghost use Rattle.vt_hub.specs.Answers.{Answers, Turns};
ghost use Rattle.vt_hub.specs.Closed.{IsWhole};
ghost use Rattle.vt_hub.specs.Histories.{BeginsWith, IsRead, awaits};
ghost use Rattle.vt_hub.specs.Views.{is_made, is_out, new_pass, view_at_open, stand_at, with_pass};
ghost use Rattle.vt_hub.specs.declared.pass_place.PassPlace.TheVariants.{Home};
ghost use Rattle.vt_world.specs.History.{IsLegal, replay};
ghost use Rattle.vt_world.specs.Spare.{Fits};
ghost use Rattle.vt_world.specs.State.{is_waiting};
ghost use Rattle.vt_world.specs.Refusals.{ends_wait};

use crate::answer::Answer;
use crate::look::Look;
use crate::opening::Opening;
use crate::pass::Pass;
use crate::pass_place::PassPlace;
use crate::run::Run;
use crate::shared::Shared;
use crate::steward::Steward;
use crate::turned::Turned;
use crate::wake_ups::WakeUps;
use std::alloc::Global;
use std::marker::Model;
use std::sync::Wait;
use turn_lock::TurnLock;
use vt_base::{CallerNo, ConsoleNo, NoMemory, Size};
use vt_events::Event;
use vt_journal::{Limits, Log};
use vt_world::{Spare, World};

/// One machine for callers in several threads. Contracts see which hub it is.
#[derive(Drop)]
pub struct Hub<J: Opening> {
    lock: TurnLock<Shared<J>>,
    wake_ups: WakeUps,
    alloc: Global,
    // The size of the screens, which determines the memory that a call needs.
    size: Size,
}

impl<J: Opening> Model for Hub<J> {
    ghost use Rattle.std.specs.Prelude.{◌≡◌};
    ghost use Rattle.atomic_table.specs.Seated.{TableId};
    ghost use Rattle.turn_lock.specs.Words.{name};

    ghost Value = { TableId };

    ghost view = { λ h. name h.lock };

    ghost invariant = { λ h. (h.size.rows ≡ J.start.rows) × (h.size.cols ≡ J.start.cols) };
}

impl<J: Opening> Hub<J> {
    /// A hub over this machine, and its steward. All room of the journal is reserved here.
    pub fn open(alloc: Global, w: World, limits: Limits) -> Result<(Hub<J>, Steward<J>), NoMemory>
        requires start { w ≡ J.start }
        requires limits { limits ≡ J.limits }
        requires events { limits.events ≤ 1_000_000 }
        requires bytes { limits.bytes ≤ 1_073_741_824 }
        requires free { (p : ℕ) → is_waiting w p ≡ false }
        ensures { IfOk result (λ made. made.1 ≡ view_at_open J.start made.0) }
    {
        let size = w.size();
        let log = Log::with_room(alloc, limits.events, limits.bytes)?;
        let shared = Shared::new(alloc, w, log)?;
        shared.sound();
        let wake_ups = WakeUps::new(alloc)?;
        let (lock, place) = TurnLock::open(alloc, shared)?;
        let stands = [PassPlace::Unmade; 68];
        Ok((
            Hub {
                lock,
                wake_ups,
                alloc,
                size,
            },
            Steward {
                place,
                stands,
                out: 0,
            },
        ))
    }

    // The size of the screens.
    pub(crate) fn size(&self) -> Size
        ensures rows { result.rows ≡ J.start.rows }
        ensures cols { result.cols ≡ J.start.cols }
    {
        self.size
    }

    /// Makes the pass of a caller.
    pub fn split(&self, s: &mut Steward<J>, c: CallerNo) -> Pass<J>
        requires own { s.old.hub ≡ self.now }
        requires fresh { is_made (stand_at s.old.stands c) ≡ false }
        ensures steward { s.new ≡ with_pass c s.old }
        ensures pass { result ≡ new_pass c s.old }
    {
        let place = self.lock.split(&mut s.place, u32::from(c.get()));
        s.stands[usize::from(c.get())] = PassPlace::Out;
        s.out += 1;
        Pass {
            place,
            number: c,
            seq: 0,
            kept: None,
        }
    }

    /// Joins a pass. The steward has then seen the longer history of both and read the longer one of
    /// both; passes that are made later begin there.
    pub fn join(&self, s: &mut Steward<J>, p: Pass<J>)
        requires own { s.old.hub ≡ self.now }
        requires other { p.hub ≡ self.now }
        ensures hub { s.new.hub ≡ s.old.hub }
        ensures stands { s.new.stands ≡ slice_set s.old.stands p.number Home }
        ensures joined { s.new.joined ≡ p ∷ s.old.joined }
        ensures own_seen { BeginsWith s.new.seen s.old.seen }
        ensures other_seen { BeginsWith s.new.seen p.seen }
        ensures known { s.new.known ≡ max s.old.known p.known }
        ensures own_read { BeginsWith s.new.read s.old.read }
        ensures other_read { BeginsWith s.new.read p.read }
    {
        let Pass {
            place,
            number,
            seq: _,
            kept: _,
        } = p;
        self.lock.join(&mut s.place, place);
        s.stands[usize::from(number.get())] = PassPlace::Home;
        s.out -= 1;
    }

    /// Enters a call, after waiting for its turn. If there is no room for it, the hub stops: from then on
    /// every call of every pass gets that answer.
    pub fn call<R: Wait>(&self, rt: &R, p: &mut Pass<J>, event: Event, spare: Spare) -> Answer
        requires own { p.old.hub ≡ self.now }
        requires call { ends_wait event ≡ false }
        requires fits { Fits J.start.rows J.start.cols event spare }
        // A caller that was answered "wait" makes `wait_end` first.
        requires free { p.old.stop ≡ None → awaits p.old.mine ≡ false }
        ensures { Answers J.start J.limits event p.old p.new result }
    {
        let mut event = event;
        let mut spare = spare;
        let answer = match self.turn(rt, p, &mut event, &mut spare) {
            Turned::Done { at, reply, .. } => Answer::Done { at, reply },
            Turned::Full { full, .. } => Answer::Full(full),
            Turned::Waits => unreachable!(),
        };
        spare.keep_grid(&mut p.kept);
        answer
    }

    /// Sleeps until the caller's wait in the machine has ended or the hub has stopped, and then enters
    /// the WaitEnd. While the wait is open, nothing is entered.
    pub fn wait_end<R: Wait>(&self, rt: &R, p: &mut Pass<J>) -> Answer
        requires own { p.old.hub ≡ self.now }
        ensures { Answers J.start J.limits event.WaitEnd p.old p.new result }
    {
        for _ in rt.forever() {
            // The wait is prepared before the look, so that a wake-up between the two ends it.
            let key = self.wake_ups.prepare_wait(p.number);
            let mut event = Event::WaitEnd;
            let mut none = Spare::none(self.alloc);
            match self.turn(rt, p, &mut event, &mut none) {
                Turned::Done { at, reply, .. } => return Answer::Done { at, reply },
                Turned::Full { full, .. } => return Answer::Full(full),
                Turned::Waits => key.wait(rt),
            }
        }
        unreachable!()
    }

    // One turn of the caller, which enters the call unless its ticket is open, and wakes exactly the processes whose
    // tickets this call ended; all processes if the hub has stopped. An entered call takes its event, and of its memory
    // the parts that it uses. Both are lent, so that they are not moved through each function.
    fn turn<R: Wait>(&self, rt: &R, p: &mut Pass<J>, event: &mut Event, spare: &mut Spare) -> Turned
        requires own { p.old.hub ≡ self.now }
        requires fits { Fits J.start.rows J.start.cols event.old spare.old }
        ensures { Turns J.start J.limits event.old p.old p.new result }
    {
        let number = p.number;
        let seq = p.seq;
        let mut held = self.lock.enter(rt, &mut p.place);
        let shared = held.value();
        shared.sound();
        let look = shared.call(number, seq, event, spare);
        shared.sound();
        match look {
            Look::Done { at, reply, ended } => {
                held.publish();
                held.leave();
                let woken = self.wake_ups.wake(ended);
                p.seq = seq + 1;
                Turned::Done { at, reply, woken }
            }
            Look::Full(full) => {
                held.leave();
                let woken = self.wake_ups.wake_all();
                Turned::Full { full, woken }
            }
            Look::Waits => {
                held.leave();
                Turned::Waits
            }
        }
    }

    /// The display after all calls that were entered by now, without waiting. The history that the pass
    /// has seen, and the one that it had read, are prefixes of this history, and this one is a prefix of
    /// every history that the pass sees later.
    pub fn display_now(&self, p: &mut Pass<J>) -> ConsoleNo
        requires own { p.old.hub ≡ self.now }
        ensures legal { IsLegal J.start p.new.read }
        ensures shown { result ≡ (replay J.start p.new.read).display.front }
        ensures seen { BeginsWith p.new.read p.old.seen }
        ensures read { BeginsWith p.new.read p.old.read }
        ensures word { p.new.known ≡ 64 * length p.new.read + result }
        ensures rest { p.new ≡ record p.old { known = p.new.known; read = p.new.read } }
        ensures later { p.old.known / 64 ≤ p.new.known / 64 }
        ensures greatest { p.old.known ≤ p.new.known }
        // Every later history has that prefix and this display after it, also after a later answer.
        ensures stands { (history : List Entry) → BeginsWith history p.new.read
            → IsRead J.start history p.new.known }
    {
        let word = self.lock.front(&mut p.place);
        ConsoleNo::new((word % 64) as u16).unwrap()
    }

    /// Ends the hub, when all passes have been joined.
    pub fn close(self, s: Steward<J>) -> Run
        requires own { s.hub ≡ self }
        requires all { count_by is_out s.stands ≡ 0 }
        ensures { IsWhole J.start J.limits s result.world result.log result.stop }
    {
        let Hub {
            lock,
            wake_ups: _,
            alloc: _,
            size: _,
        } = self;
        let shared = lock.close(s.place);
        shared.sound();
        let (world, log, stop) = shared.parts();
        // They say that the log is within its limits.
        let _entries = log.entries();
        let _bytes = log.bytes();
        Run { world, log, stop }
    }
}
