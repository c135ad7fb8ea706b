//! Whether the callers of two machines are the same, and the copy of one machine's into the other.
ghost use Rattle.std.specs.Prelude.{◌≡◌, IsTrue, length};

use crate::{Process, Procs, Waiting};

impl Procs {
    /// Whether both are the same. Nothing is proved of the answer `false`.
    pub fn same(&self, other: &Procs) -> bool
        ensures { IsTrue result → self.now ≡ other.now }
    {
        self.accepter == other.accepter && are_same_callers(&self.callers, &other.callers)
    }

    /// Becomes the other.
    pub fn copy_from(&mut self, other: &Procs)
        ensures { self.new ≡ other.now }
    {
        self.callers.copy_from_slice(&other.callers);
        self.accepter = other.accepter;
    }
}

// Whether all callers are the same.
fn are_same_callers(callers: &[Process], others: &[Process]) -> bool
    requires { length callers.now ≡ length others.now }
    ensures { IsTrue result → callers.now ≡ others.now }
{
    for p in 0..callers.len() {
        if !is_same_caller(&callers[p], &others[p]) {
            return false;
        }
    }
    true
}

// Whether both callers are the same.
fn is_same_caller(caller: &Process, other: &Process) -> bool
    ensures { IsTrue result → caller.now ≡ other.now }
{
    caller.live == other.live
        && caller.home == other.home
        && caller.privileged == other.privileged
        && caller.pending == other.pending
        && is_same_wait(&caller.waiting, &other.waiting)
        && caller.opens.same(&other.opens)
}

// Whether both waits are the same.
fn is_same_wait(wait: &Waiting, other: &Waiting) -> bool
    ensures { IsTrue result → wait.now ≡ other.now }
{
    wait == other
}
