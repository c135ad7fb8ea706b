ghost use Rattle.std.specs.Prelude.{◌≡◌, true, length, IfSome};
ghost use Rattle.vt_switch.specs.Display.{MayWait, fresh, is_allocated};
ghost use Rattle.vt_base.specs.ConsoleSet.{IsFitSet, at_each};
ghost use Rattle.vt_switch.specs.Calls.{allocate, first_display};

use crate::{Console, Handling, Words};
use std::marker::Model;
use vt_base::{CONSOLES, ConsoleNo, is_among};

/// The places for consoles by their numbers, of which 0 stays free.
pub(crate) const CONSOLE_PLACES: usize = CONSOLES + 1;

/// The state of a new console.
pub(crate) const FRESH: Console = Console {
    graphics: false,
    handling: Handling::Auto(Words {
        waitv: 0,
        relsig: 0,
        acqsig: 0,
        frsig: 0,
    }),
};

/// The state of the display: the console in front, the console that waits for the display, and how
/// each console handles its switches.
#[derive(Debug, Drop)]
pub struct Switch {
    pub(crate) front: ConsoleNo,
    pub(crate) last: ConsoleNo,
    pub(crate) locked: bool,
    pub(crate) pending: Option<ConsoleNo>,
    pub(crate) consoles: [Option<Console>; CONSOLE_PLACES],
}

impl Model for Switch {
    ghost use Rattle.vt_switch.specs.Display.{Display, display_of};

    ghost Value = { Display };

    ghost view = { λ s. display_of s.front s.last s.locked s.pending s.consoles };

    ghost use Rattle.vt_switch.specs.Display.{IsSound};

    ghost invariant = { λ s. IsSound (display_of s.front s.last s.locked s.pending s.consoles) };
}

impl Switch {
    /// The start: these consoles are allocated and new, and one of them is in front.
    pub fn start(front: ConsoleNo, allocated: u64) -> Switch
        requires { IsFitSet allocated front }
        ensures { result ≡ first_display allocated front }
    {
        front.stays_in_range();
        let mut consoles = [None; CONSOLE_PLACES];
        fill(&mut consoles, allocated);
        Switch {
            front,
            last: front,
            locked: false,
            pending: None,
            consoles,
        }
    }

    /// The console in front.
    pub fn front(&self) -> ConsoleNo
        ensures front { result ≡ self.now.front }
        ensures allocated { is_allocated self.now self.now.front ≡ true }
    {
        self.front
    }

    /// The console that was in front before the last hop.
    pub fn last(&self) -> ConsoleNo
        ensures { result ≡ self.now.last }
    {
        self.last
    }

    /// The console that waits for the display.
    pub fn pending(&self) -> Option<ConsoleNo>
        ensures console { result ≡ self.now.pending }
        ensures waits { IfSome self.now.pending (MayWait self.now) }
    {
        self.pending
    }

    /// Whether requests are ignored.
    pub fn locked(&self) -> bool
        ensures { result ≡ self.now.locked }
    {
        self.locked
    }

    pub fn allocated(&self, c: ConsoleNo) -> bool
        ensures { result ≡ is_allocated self.now c }
    {
        self.consoles[usize::from(c.get())].is_some()
    }

    /// Allocates the console as a new one, if it isn't allocated.
    pub fn allocate(&mut self, c: ConsoleNo)
        ensures { self.new ≡ allocate self.old c }
    {
        let n = usize::from(c.get());
        if self.consoles[n].is_none() {
            self.consoles[n] = Some(FRESH);
        }
    }
}

// A new console at the place of each that is allocated.
fn fill(consoles: &mut [Option<Console>], allocated: u64)
    requires { length consoles.old ≡ 64 }
    ensures { consoles.new ≡ at_each allocated fresh }
{
    for n in 0..CONSOLE_PLACES {
        consoles[n] = if is_among(allocated, n) {
            Some(FRESH)
        } else {
            None
        };
    }
}
