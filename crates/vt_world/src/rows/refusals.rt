//! The tests that several events share.
ghost use Rattle.std.specs.Prelude.{◌≡◌, [], ◌∷◌, IfOk, Some, true};
ghost use Rattle.vt_procs.specs.Callers.{console_of};
ghost use Rattle.vt_world.specs.Refusals.{error_of, first_refusal, may_handle, needs_open, needs_privilege, needs_right, needs_sense};

use crate::World;
use vt_base::{CallerNo, ConsoleNo, Errno};

impl World {
    /// The console that the descriptor is open on.
    pub(crate) fn opened(&self, p: CallerNo, fd: u16) -> Result<ConsoleNo, Errno>
        ensures open { IfOk result (λ c. console_of self.now.callers p fd ≡ Some c) }
        ensures refused { error_of result ≡ first_refusal (needs_open self.now p fd ∷ []) }
    {
        self.procs.console_of(p, fd).ok_or(Errno::Badf)
    }

    /// The descriptor's console, if `p` has the right to handle it.
    pub(crate) fn owned_console(&self, p: CallerNo, fd: u16) -> Result<ConsoleNo, Errno>
        ensures open { IfOk result (λ c. console_of self.now.callers p fd ≡ Some c) }
        ensures refused { error_of result
            ≡ first_refusal (needs_open self.now p fd ∷ needs_right self.now p fd ∷ []) }
    {
        let c = self.opened(p, fd)?;
        if !self.may_handle(p, c) {
            return Err(Errno::Perm);
        }
        Ok(c)
    }

    /// Refuses a process that may not lock and unlock switching.
    pub(crate) fn check_lock_right(&self, p: CallerNo, fd: u16) -> Result<(), Errno>
        ensures { error_of result
            ≡ first_refusal (needs_open self.now p fd ∷ needs_privilege self.now p ∷ []) }
    {
        self.opened(p, fd)?;
        if !self.procs.privileged(p) {
            return Err(Errno::Perm);
        }
        Ok(())
    }

    // Whether `p` is privileged, or the console is its home.
    fn may_handle(&self, p: CallerNo, c: ConsoleNo) -> bool
        ensures { result ≡ may_handle self.now p c }
    {
        self.procs.privileged(p) || c.get() == u16::from(self.procs.home(p))
    }
}

/// Refuses a request that makes no sense.
pub(crate) fn check_sense(makes_sense: bool) -> Result<(), Errno>
    ensures sense { IfOk result (λ sensible. makes_sense ≡ true) }
    ensures refused { error_of result ≡ first_refusal (needs_sense makes_sense ∷ []) }
{
    if makes_sense {
        Ok(())
    } else {
        Err(Errno::Inval)
    }
}
