//! The answers of the process that handles the switches of a console.
ghost use Rattle.std.specs.Prelude.{◌≡◌, true, IfSome};
ghost use Rattle.vt_switch.specs.Display.{is_allocated};
ghost use Rattle.vt_switch.specs.Calls.{after_released, drop_pending, let_go, owns, release, release_result, pending_at};

use crate::{Cause, Handling, Hop, Switch};
use vt_base::{CallerNo, ConsoleNo, Inval};

impl Switch {
    /// The answer of process `p` for console `c`: 1 lets a pending switch away from `c` happen, 0 drops
    /// it, 2 acknowledges that `c` got the display (ioctl_console(2), VT_RELDISP).
    pub fn release(&mut self, c: ConsoleNo, p: CallerNo, arg: u16) -> Result<Option<Hop>, Inval>
        ensures answer { result ≡ release_result self.old c p arg }
        ensures state { self.new ≡ release self.old c p arg }
    {
        if !self.owns(p, c) {
            return Err(Inval);
        }
        match arg {
            0 => self.keep(c),
            1 => self.let_go(c, p),
            2 => Ok(None),
            _ => Err(Inval),
        }
    }

    /// Whether process `p` handles the switches of console `c`.
    pub fn owns(&self, p: CallerNo, c: ConsoleNo) -> bool
        ensures { result ≡ owns self.now p c }
    {
        match &self.consoles[usize::from(c.get())] {
            Some(console) => match &console.handling {
                Handling::Process(handshake) => handshake.owner == p,
                Handling::Auto(_) => false,
            },
            None => false,
        }
    }

    fn waiting(&self, c: ConsoleNo) -> Option<ConsoleNo>
        ensures console { result ≡ pending_at self.now c }
        ensures allocated { IfSome result (λ n. is_allocated self.now n ≡ true) }
    {
        if c == self.front { self.pending } else { None }
    }

    fn keep(&mut self, c: ConsoleNo) -> Result<Option<Hop>, Inval>
        ensures answer { result ≡ drop_pending (pending_at self.old c) }
        ensures state { self.new ≡ after_released self.old 0 (drop_pending (pending_at self.old c)) }
    {
        match self.waiting(c) {
            Some(_) => {
                self.pending = None;
                Ok(None)
            }
            None => Err(Inval),
        }
    }

    fn let_go(&mut self, c: ConsoleNo, p: CallerNo) -> Result<Option<Hop>, Inval>
        ensures answer { result ≡ let_go self.old p (pending_at self.old c) }
        ensures state { self.new ≡ after_released self.old 1 (let_go self.old p (pending_at self.old c)) }
    {
        match self.waiting(c) {
            Some(to) => {
                let hop = self.hop_to(to, Cause::Released(p));
                self.hop(&hop);
                Ok(Some(hop))
            }
            None => Err(Inval),
        }
    }
}
