//! Marks: the trace gets them, and the callers learn of them.
ghost use Rattle.std.specs.Prelude.{◌≡◌, ◌+◌, ◌<◌, ◌≤◌, length};
ghost use Rattle.vt_switch.specs.Moments.{hop_marks, raise};
ghost use Rattle.vt_world.specs.Heard.{apply_marks};
ghost use Rattle.vt_world.specs.State.{core};

use crate::World;
use crate::trace::MOST_MARKS;
use vt_base::{CallerNo, Signal};
use vt_switch::{Handling, Hop, Mark};

impl World {
    /// Raises a signal to a caller, if it is alive.
    pub(crate) fn raise(&mut self, p: CallerNo, signal: Signal)
        requires { length self.old.trace.marks < MOST_MARKS }
        ensures state { self.new ≡ apply_marks self.old (raise (core self.old) p signal) }
        ensures room { length self.new.trace.marks ≤ length self.old.trace.marks + 1 }
    {
        if self.procs.live(p) {
            self.procs.raise(p, signal);
            self.trace.push(&Mark::Raised { to: p, signal });
        }
    }

    /// Records the switch of the display, if there was one, and raises the signal of the process that
    /// handles the switches of the new front.
    pub(crate) fn hopped(&mut self, hop: &Option<Hop>)
        requires { length self.old.trace.marks + 2 ≤ MOST_MARKS }
        ensures state { self.new ≡ apply_marks self.old (hop_marks (core self.old) hop.now) }
        ensures room { length self.new.trace.marks ≤ length self.old.trace.marks + 2 }
    {
        let Some(hop) = hop else { return };
        self.procs.shown(hop.to);
        self.trace.push(&Mark::Hopped(*hop));
        match &self.switch.handling(hop.to) {
            Handling::Process(handshake) => self.raise(handshake.owner, handshake.acqsig),
            Handling::Auto(_) => {}
        }
    }
}
