ghost use Rattle.std.specs.Prelude.{◌≡◌, ◌==◌, ◌%◌, ◌^◌, ◌&&◌, ◌||◌, ℕ, false, not, true, if◌then◌else◌};
ghost use Rattle.vt_hub.specs.Waiters.{IsProcess, has_process};
ghost use Rattle.vt_world.specs.State.{is_waiting};

use vt_base::CallerNo;
use vt_world::World;

/// A set of processes: a bit for each of the 64.
#[derive(Clone, Copy)]
pub(crate) struct Waiters {
    bits: u64,
}

impl Waiters {
    pub(crate) fn none() -> Waiters
        ensures { (p : ℕ) → has_process result.bits p ≡ false }
    {
        Waiters { bits: 0 }
    }

    pub(crate) fn is_empty(self) -> bool
        ensures { result ≡ true → (p : ℕ) → has_process self.bits p ≡ false }
    {
        self.bits == 0
    }

    pub(crate) fn has(self, caller: CallerNo) -> bool
        ensures { result ≡ has_process self.bits caller }
    {
        self.bits & bit(caller) != 0
    }

    /// Those whose tickets are open after a call of this caller, if these are those that were open before it.
    pub(crate) fn after(self, world: &World, caller: CallerNo) -> Waiters
        ensures { (p : ℕ) → IsProcess p
            → has_process result.bits p ≡ (is_waiting world.now p && (p == caller || has_process self.bits p)) }
    {
        let mut waits = Waiters::alone(world, caller);
        if self.is_empty() {
            return waits;
        }
        for process in CallerNo::processes() {
            waits = self.also(waits, world, process);
        }
        waits
    }

    /// The processes whose tickets ended, if these are those with open tickets before, and `later` those after it.
    pub(crate) fn ended(self, later: Waiters) -> Ended
        ensures { (p : ℕ) → has_process result.set.bits p
            ≡ (has_process self.bits p && not (has_process later.bits p)) }
    {
        let set = Waiters {
            bits: self.bits & !later.bits,
        };
        Ended { set }
    }

    // The caller, if it is a process and its ticket is open. A keyboard never waits, and has no bit.
    fn alone(world: &World, caller: CallerNo) -> Waiters
        ensures { (p : ℕ) → IsProcess p → has_process result.bits p ≡ (is_waiting world.now p && p == caller) }
    {
        if !caller.is_keyboard() && world.waiting(caller) {
            Waiters::none().with(caller)
        } else {
            Waiters::none()
        }
    }

    // These waiters, and the process if it is in this set and its ticket is open.
    #[inline(always)]
    fn also(self, waits: Waiters, world: &World, process: CallerNo) -> Waiters
        ensures { (p : ℕ) → has_process result.bits p
            ≡ (if has_process self.bits process && is_waiting world.now process
            then p % 64 == process % 64 || has_process waits.bits p
            else has_process waits.bits p) }
    {
        if self.has(process) && world.waiting(process) {
            waits.with(process)
        } else {
            waits
        }
    }

    /// These and this process.
    pub(crate) fn with(self, process: CallerNo) -> Waiters
        ensures { (p : ℕ) → has_process result.bits p ≡ (p % 64 == process % 64 || has_process self.bits p) }
    {
        Waiters {
            bits: self.bits | bit(process),
        }
    }
}

/// The processes whose tickets a call ended. It isn't `Drop`, so a turn that only drops it doesn't compile.
pub(crate) struct Ended {
    set: Waiters,
}

impl Ended {
    /// The set of these processes.
    pub(crate) fn set(self) -> Waiters
        ensures { result ≡ self.set }
    {
        let Ended { set } = self;
        set
    }
}

// The bit of a process. Process 64 has bit 0.
fn bit(caller: CallerNo) -> u64
    ensures { result ≡ 2 ^ (caller % 64) }
{
    1 << (caller.get() % 64)
}
