//! The choice of the handler of a console's switches.
ghost use Rattle.std.specs.Prelude.{◌≡◌, Some};
ghost use Rattle.vt_switch.specs.Calls.{after_mode, with_console_handling, handling_of, mode_answer, process_of, set_mode, signal_of};

use crate::{Handling, Handshake, Switch, Words};
use vt_base::{CallerNo, ConsoleNo, Inval, Signal, VtMode};

/// SIGKILL, which no handshake may use (signal(7)).
pub const SIGKILL: u16 = 9;

impl Switch {
    /// Sets the mode of console `c` for process `p` (ioctl_console(2), VT_SETMODE).
    pub fn set_mode(&mut self, c: ConsoleNo, p: CallerNo, m: VtMode) -> Result<(), Inval>
        ensures answer { result ≡ mode_answer (handling_of p m) }
        ensures state { self.new ≡ set_mode self.old c p m }
    {
        match handling_of(p, m) {
            Some(handling) => {
                self.handle(c, &handling);
                Ok(())
            }
            None => Err(Inval),
        }
    }

    fn handle(&mut self, c: ConsoleNo, handling: &Handling)
        ensures { self.new ≡ after_mode self.old c (Some handling.now) }
    {
        if let Some(console) = &mut self.consoles[usize::from(c.get())] {
            console.handling = *handling;
        }
        if c == self.front {
            self.pending = None;
        }
    }
}

fn handling_of(p: CallerNo, m: VtMode) -> Option<Handling>
    ensures { result ≡ handling_of p m }
{
    match m.mode {
        0 => Some(Handling::Auto(Words {
            waitv: m.waitv,
            relsig: m.relsig,
            acqsig: m.acqsig,
            frsig: m.frsig,
        })),
        1 => process_of(p, m),
        _ => None,
    }
}

fn process_of(p: CallerNo, m: VtMode) -> Option<Handling>
    ensures { result ≡ process_of p m (signal_of m.relsig) (signal_of m.acqsig) }
{
    let relsig = signal_of(m.relsig)?;
    let acqsig = signal_of(m.acqsig)?;
    Some(Handling::Process(Handshake {
        owner: p,
        waitv: m.waitv,
        relsig,
        acqsig,
        frsig: m.frsig,
    }))
}

fn signal_of(n: u16) -> Option<Signal>
    ensures { result ≡ signal_of n }
{
    if n == SIGKILL {
        return None;
    }
    Signal::new(n)
}
