//! The acts of the switch on a machine: each is carried out, and the trace gets its marks.
ghost use Rattle.std.specs.Prelude.{◌≡◌, ◌+◌, ◌≤◌, true, length};
ghost use Rattle.vt_procs.specs.Callers.{is_live};
ghost use Rattle.vt_switch.specs.Acts.{End, Lock, Release, SetKd, SetMode};
ghost use Rattle.vt_switch.specs.Calls.{handling_of, mode_answer, release_result};
ghost use Rattle.vt_world.specs.Deeds.{Asks, By, apply_deed};
ghost use Rattle.vt_world.specs.Refusals.{is_taken};

use crate::World;
use crate::trace::MOST_MARKS;
use crate::wanted::Wanted;
use vt_base::{CallerNo, ConsoleNo, VtMode};
use vt_switch::{Asked, Mark};

impl World {
    /// Requests the display for the wanted console, if there is one and it is allocated.
    pub(crate) fn request(&mut self, wanted: Wanted)
        requires { length self.old.trace.marks + 3 ≤ MOST_MARKS }
        ensures state { self.new ≡ apply_deed self.old (Asks wanted) }
        ensures room { length self.new.trace.marks ≤ length self.old.trace.marks + 3 }
    {
        let Some(n) = self.wanted(wanted) else { return };
        let allocated = self.switch.allocated(n);
        let asked = self.switch.request(n);
        if !allocated {
            return;
        }
        self.trace.push(&Mark::Asked(n));
        match &asked {
            Asked::Hopped(hop) => self.hopped(&Some(*hop)),
            Asked::Signalled { owner, signal } => self.raise(*owner, *signal),
            Asked::Ignored => {}
        }
    }

    /// Carries out a release call of `p` for the console. Returns whether it made sense.
    pub(crate) fn release_console(&mut self, c: ConsoleNo, p: CallerNo, arg: u16) -> bool
        requires { length self.old.trace.marks + 2 ≤ MOST_MARKS }
        ensures accepted { result ≡ is_taken (release_result self.old.display c p arg) }
        ensures state { self.new ≡ apply_deed self.old (By (Release c p arg)) }
    {
        match self.switch.release(c, p, arg) {
            Ok(hop) => {
                self.hopped(&hop);
                true
            }
            Err(_) => false,
        }
    }

    /// Sets how the switches of the console are handled, as a live caller asks. Returns whether
    /// that made sense.
    pub(crate) fn handle(&mut self, c: ConsoleNo, p: CallerNo, m: VtMode) -> bool
        requires { is_live self.old.callers p ≡ true }
        ensures accepted { result ≡ is_taken (mode_answer (handling_of p m)) }
        ensures state { self.new ≡ apply_deed self.old (By (SetMode c p m)) }
    {
        self.switch.set_mode(c, p, m).is_ok()
    }

    /// Lets the console show graphics, or text.
    pub(crate) fn show(&mut self, c: ConsoleNo, graphics: bool)
        ensures { self.new ≡ apply_deed self.old (By (SetKd c graphics)) }
    {
        self.switch.set_kd(c, graphics);
    }

    /// Locks switching, or unlocks it. Requests are ignored while it is locked.
    pub(crate) fn lock(&mut self, on: bool)
        ensures { self.new ≡ apply_deed self.old (By (Lock on)) }
    {
        self.switch.set_lock(on);
    }

    /// Ends a caller.
    pub(crate) fn end(&mut self, p: CallerNo)
        requires { length self.old.trace.marks + 3 ≤ MOST_MARKS }
        ensures state { self.new ≡ apply_deed self.old (By (End p)) }
        ensures room { length self.new.trace.marks ≤ length self.old.trace.marks + 3 }
    {
        let hop = self.switch.leave(p);
        self.procs.end(p);
        self.trace.push(&Mark::Ended(p));
        self.hopped(&hop);
    }
}
