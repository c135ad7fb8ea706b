ghost use Rattle.std.specs.Prelude.{◌≡◌, ◌+◌, ◌*◌, ℕ, [], IfOk, Some, None, false, length, option_map};
ghost use Rattle.vt_events.specs.Charge.{charge_of};
ghost use Rattle.vt_hub.specs.Histories.{made_by};
ghost use Rattle.vt_hub.specs.Shared.{ComesTo, IsSound};
ghost use Rattle.vt_journal.specs.Room.{HasRoom};
ghost use Rattle.vt_world.specs.Spare.{Fits};
ghost use Rattle.vt_world.specs.State.{is_waiting};

use crate::look::Look;
use crate::opening::Opening;
use crate::state::State;
use crate::waiters::Waiters;
use std::alloc::Global;
use std::marker::{Model, PhantomData};
use std::mem;
use turn_lock::Seal;
use vt_base::{CallerNo, NoMemory};
use vt_events::{Entry, Event, charge};
use vt_journal::{Full, Log};
use vt_world::{Spare, World, displays_are_lawful_from};

/// The value under the lock: the world after the entries of the log, and where the hub stopped.
#[derive(Drop)]
pub(crate) struct Shared<J: Opening> {
    // In a box, so that a turn moves one word.
    state: Box<State>,
    of: PhantomData<J>,
}

impl<J: Opening> Model for Shared<J> {
    ghost use Rattle.vt_hub.specs.Shared.{IsSound, SharedView, shared_view};

    ghost Value = { SharedView };

    ghost view = { λ s. shared_view s.state.value };

    ghost invariant = { λ s. IsSound J.start J.limits (shared_view s.state.value) };
}

impl<J: Opening> Shared<J> {
    /// The world that is opened, with no entries.
    #[tactic(auto, using(vt_world::proofs::Histories::nothing_is_legal))]
    pub(crate) fn new(alloc: Global, world: World, log: Log) -> Result<Shared<J>, NoMemory>
        requires start { world ≡ J.start }
        requires limits { log.limits ≡ J.limits }
        requires empty { log.entries ≡ [] }
        requires free { (p : ℕ) → is_waiting world p ≡ false }
        ensures log { IfOk result (λ made. made.log ≡ log) }
        ensures stop { IfOk result (λ made. made.stop ≡ None) }
    {
        displays_are_lawful_from(&world);
        let _front = world.display().get(); // it says that the console is 1 to 63
        let state = State {
            world,
            log,
            stop: None,
            waits: Waiters::none(),
        };
        Ok(Shared {
            state: Box::new(alloc, state)?,
            of: PhantomData,
        })
    }

    /// Its invariant.
    pub(crate) fn sound(&self)
        ensures { IsSound J.start J.limits self.now }
    {
        let _ = &self.state.stop; // opens the state
    }

    /// 64 times the number of entries, plus the display.
    pub(crate) fn word(&self) -> u64
        ensures { result ≡ 64 * length self.now.log.entries + self.now.world.display.front }
    {
        64 * self.state.log.entries().len() as u64 + u64::from(self.state.world.display().get())
    }

    /// One look of a caller that has made `seq` calls: it enters its next call, unless the hub has
    /// stopped, its ticket is open, or there is no room. If there is none, the hub stops.
    pub(crate) fn call(
        &mut self,
        caller: CallerNo,
        seq: u32,
        event: &mut Event,
        spare: &mut Spare,
    ) -> Look
        requires fits { Fits J.start.rows J.start.cols event.old spare.old }
        requires number { seq ≡ length (made_by caller self.old.log.entries) }
        ensures { ComesTo caller seq event.old self.old self.new result }
    {
        self.sound();
        let state = &*self.state;
        if let Some(stop) = &state.stop {
            return Look::Full(stop.what);
        }
        if state.world.waiting(caller) {
            return Look::Waits;
        }
        let charge = charge(event);
        if let Some(full) = state.log.stop(charge) {
            self.state.stop = Some(Seal {
                by: u32::from(caller.get()),
                what: full,
            });
            return Look::Full(full);
        }
        self.enter(caller, seq, event, charge, spare)
    }

    // Enters the call, which has that charge.
    fn enter(
        &mut self,
        caller: CallerNo,
        seq: u32,
        event: &mut Event,
        charge: u32,
        spare: &mut Spare,
    ) -> Look
        requires fits { Fits self.old.world.rows self.old.world.cols event.old spare.old }
        requires number { seq ≡ length (made_by caller self.old.log.entries) }
        requires open { self.old.stop ≡ None }
        requires free { is_waiting self.old.world caller ≡ false }
        requires charge { charge ≡ charge_of event.old }
        requires room { HasRoom self.old.log charge }
        ensures { ComesTo caller seq event.old self.old self.new result }
    {
        self.sound();
        let state = &mut *self.state;
        let at = state.log.entries().len() as u32;
        let reply = state.world.step_with(caller, event, spare);
        let _front = state.world.display().get(); // it says that the console is 1 to 63
        let waits = state.waits.after(&state.world, caller);
        let ended = state.waits.ended(waits);
        state.waits = waits;
        let entry = Entry {
            caller,
            seq,
            event: mem::replace(event, Event::WaitEnd),
            reply: spare.copy(&reply),
        };
        state.log.push_counted(entry, charge);
        Look::Done { at, reply, ended }
    }

    /// The world, the log, and where the hub stopped.
    pub(crate) fn parts(self) -> (World, Log, Option<Full>)
        ensures world { result.0 ≡ self.world }
        ensures log { result.1 ≡ self.log }
        ensures stop { result.2 ≡ option_map (λ z. z.what) self.stop }
    {
        let State {
            world,
            log,
            stop,
            waits: _,
        } = Box::into_inner(self.state);
        let stop = match stop {
            Some(stop) => Some(stop.what),
            None => None,
        };
        (world, log, stop)
    }
}
