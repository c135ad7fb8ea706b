//! What a machine's callers and consoles are like, one fact a call.
ghost use Rattle.std.specs.Prelude.{◌≡◌};
ghost use Rattle.vt_procs.specs.Callers.{caller_at, has_open};
ghost use Rattle.vt_switch.specs.Display.{console};

use crate::World;
use vt_base::{CallerNo, ConsoleNo, SigSet};

impl World {
    /// Whether the console shows graphics (ioctl_console(2), KDGETMODE).
    pub fn graphics(&self, c: ConsoleNo) -> bool
        ensures { result ≡ (console self.now.display c).graphics }
    {
        self.switch.kd(c)
    }

    /// Whether switching is locked (ioctl_console(2), VT_LOCKSWITCH).
    pub fn locked(&self) -> bool
        ensures { result ≡ self.now.display.locked }
    {
        self.switch.locked()
    }

    /// The signals that are pending for the caller.
    pub fn signals_of(&self, p: CallerNo) -> SigSet
        ensures { result ≡ (caller_at self.now.callers p).pending }
    {
        self.procs.signals_of(p)
    }

    /// Whether the caller has the console open.
    pub fn has_open(&self, p: CallerNo, c: ConsoleNo) -> bool
        ensures { result ≡ has_open (caller_at self.now.callers p).opens c }
    {
        self.procs.has_open(p, c)
    }
}
