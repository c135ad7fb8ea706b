//! Requests for the display, and its hops.
ghost use Rattle.std.specs.Prelude.{◌≡◌, true};
ghost use Rattle.vt_switch.specs.Display.{is_allocated};
ghost use Rattle.vt_switch.specs.Calls.{HasTarget, request_outcome, hop_from, with_hop, request};

use crate::{Asked, Cause, Handling, Hop, Switch};
use vt_base::ConsoleNo;

impl Switch {
    /// A request to bring a console to the front (ioctl_console(2), VT_ACTIVATE).
    pub fn request(&mut self, to: ConsoleNo) -> Asked
        ensures answer { result ≡ request_outcome self.old to }
        ensures state { self.new ≡ request self.old to }
    {
        let asked = self.asked(to);
        match &asked {
            Asked::Hopped(hop) => self.hop(hop),
            Asked::Signalled { .. } => self.pending = Some(to),
            Asked::Ignored => {}
        }
        asked
    }

    fn asked(&self, to: ConsoleNo) -> Asked
        ensures answer { result ≡ request_outcome self.now to }
        ensures target { HasTarget self.now to result }
    {
        if !self.allocated(to) || to == self.front || self.locked {
            return Asked::Ignored;
        }
        let Some(front) = &self.consoles[usize::from(self.front.get())] else {
            unreachable!()
        };
        match &front.handling {
            Handling::Process(handshake) => Asked::Signalled {
                owner: handshake.owner,
                signal: handshake.relsig,
            },
            Handling::Auto(_) if front.graphics => Asked::Ignored,
            Handling::Auto(_) => Asked::Hopped(self.hop_to(to, Cause::Free)),
        }
    }

    pub(crate) fn hop_to(&self, to: ConsoleNo, cause: Cause) -> Hop
        ensures { result ≡ hop_from self.now to cause }
    {
        Hop {
            from: self.front,
            to,
            cause,
        }
    }

    pub(crate) fn hop(&mut self, hop: &Hop)
        requires { is_allocated self.old hop.now.to ≡ true }
        ensures { self.new ≡ with_hop self.old hop.now }
    {
        self.front = hop.to;
        self.last = hop.from;
        self.pending = None;
    }
}
