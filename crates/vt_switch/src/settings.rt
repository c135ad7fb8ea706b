//! The settings of the display and of a console.
ghost use Rattle.std.specs.Prelude.{◌≡◌, false};
ghost use Rattle.vt_switch.specs.Calls.{without_console, is_held, with_kd, with_lock, words_of};
ghost use Rattle.vt_switch.specs.Display.{console, owner_of};

use crate::state::FRESH;
use crate::{Handling, Switch};
use vt_base::{CallerNo, ConsoleNo, VtMode};

impl Switch {
    /// Sets whether requests are ignored (ioctl_console(2), VT_LOCKSWITCH, VT_UNLOCKSWITCH).
    pub fn set_lock(&mut self, on: bool)
        ensures { self.new ≡ with_lock self.old on }
    {
        self.locked = on;
    }

    /// Sets whether the console shows graphics, if it is allocated (ioctl_console(2), KDSETMODE).
    pub fn set_kd(&mut self, c: ConsoleNo, graphics: bool)
        ensures { self.new ≡ with_kd self.old c graphics }
    {
        if let Some(console) = &mut self.consoles[usize::from(c.get())] {
            console.graphics = graphics;
        }
    }

    /// Whether the console shows graphics (ioctl_console(2), KDGETMODE).
    pub fn kd(&self, c: ConsoleNo) -> bool
        ensures { result ≡ (console self.now c).graphics }
    {
        match &self.consoles[usize::from(c.get())] {
            Some(console) => console.graphics,
            None => false,
        }
    }

    /// The five words of the console's mode (ioctl_console(2), VT_GETMODE).
    pub fn mode(&self, c: ConsoleNo) -> VtMode
        ensures { result ≡ words_of (console self.now c).handling }
    {
        match &self.consoles[usize::from(c.get())] {
            Some(console) => words_of(&console.handling),
            None => VtMode {
                mode: 0,
                waitv: 0,
                relsig: 0,
                acqsig: 0,
                frsig: 0,
            },
        }
    }

    /// How the console handles its switches: VT_AUTO if it isn't allocated.
    pub fn handling(&self, c: ConsoleNo) -> Handling
        ensures { result ≡ (console self.now c).handling }
    {
        match &self.consoles[usize::from(c.get())] {
            Some(console) => console.handling,
            None => FRESH.handling,
        }
    }

    /// The process that handles the switches of the console, if there is one.
    pub fn owner(&self, c: ConsoleNo) -> Option<CallerNo>
        ensures { result ≡ owner_of (console self.now c).handling }
    {
        match &self.consoles[usize::from(c.get())] {
            Some(console) => owner_of(&console.handling),
            None => None,
        }
    }

    /// Frees the console, unless it is in front, waits for the display, or a process handles its switches.
    pub fn free(&mut self, c: ConsoleNo)
        requires { is_held self.old c ≡ false }
        ensures { self.new ≡ without_console self.old c }
    {
        self.consoles[usize::from(c.get())] = None;
    }
}

fn words_of(handling: &Handling) -> VtMode
    ensures { result ≡ words_of handling.now }
{
    match handling {
        Handling::Auto(words) => VtMode {
            mode: 0,
            waitv: words.waitv,
            relsig: words.relsig,
            acqsig: words.acqsig,
            frsig: words.frsig,
        },
        Handling::Process(handshake) => VtMode {
            mode: 1,
            waitv: handshake.waitv,
            relsig: handshake.relsig.get(),
            acqsig: handshake.acqsig.get(),
            frsig: handshake.frsig,
        },
    }
}

fn owner_of(handling: &Handling) -> Option<CallerNo>
    ensures { result ≡ owner_of handling.now }
{
    match handling {
        Handling::Auto(_) => None,
        Handling::Process(handshake) => Some(handshake.owner),
    }
}
