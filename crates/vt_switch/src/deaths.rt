//! The effect of the death of a process on the display.
ghost use Rattle.std.specs.Prelude.{◌≡◌, true, None, option_map, map, if◌then◌else◌};
ghost use Rattle.vt_switch.specs.Calls.{names, owns};
ghost use Rattle.vt_switch.specs.Display.{owner_of};
ghost use Rattle.vt_switch.specs.Deaths.{after_hop, after_process_end, ended_hop, falls_to, left_by, reset, reset_hop};

use crate::state::{CONSOLE_PLACES, FRESH};
use crate::{Cause, Console, Handling, Hop, Switch};
use vt_base::{CallerNo, ConsoleNo};

impl Switch {
    /// Resets one console whose switches `p` handled, when `p` dies.
    pub fn reset(&mut self, c: ConsoleNo, p: CallerNo) -> Option<Hop>
        requires { owns self.old p c ≡ true }
        ensures answer { result ≡ reset_hop self.old c p }
        ensures state { self.new ≡ reset self.old c p }
    {
        let front = self.front;
        let hop = self.fall(c == front, p);
        self.consoles[usize::from(c.get())] = Some(FRESH);
        hop
    }

    /// Resets every console whose switches `p` handled, when `p` dies.
    pub fn leave(&mut self, p: CallerNo) -> Option<Hop>
        ensures answer { result ≡ ended_hop self.old p }
        ensures state { self.new ≡ after_process_end self.old p }
    {
        let front = self.front;
        let hop = self.fall(self.owns(p, front), p);
        give_back(&mut self.consoles, p);
        hop
    }

    // The display goes to the console that waits for it, if there is one and `p` handled the switches of the
    // front.
    fn fall(&mut self, front: bool, p: CallerNo) -> Option<Hop>
        ensures answer { result ≡ (if front then falls_to self.old p self.old.pending else None) }
        ensures state { self.new ≡ after_hop self.old result }
        ensures nothing { front ≡ true → self.new.pending ≡ None }
    {
        if !front {
            return None;
        }
        let to = self.pending?;
        let hop = self.hop_to(to, Cause::Died(p));
        self.hop(&hop);
        Some(hop)
    }
}

// Gives each console whose switches `p` handled the KD mode and the handling of a new one.
fn give_back(consoles: &mut [Option<Console>; CONSOLE_PLACES], p: CallerNo)
    ensures { consoles.new ≡ map (option_map (left_by p)) consoles.old }
{
    for n in 0..CONSOLE_PLACES {
        consoles[n] = left_by(&consoles[n], p);
    }
}

fn left_by(place: &Option<Console>, p: CallerNo) -> Option<Console>
    ensures { result ≡ option_map (left_by p) place.now }
{
    let console = place.as_ref()?;
    Some(if is_owner(&console.handling, p) {
        FRESH
    } else {
        *console
    })
}

fn is_owner(handling: &Handling, p: CallerNo) -> bool
    ensures { result ≡ names p (owner_of handling.now) }
{
    match handling {
        Handling::Auto(_) => false,
        Handling::Process(handshake) => handshake.owner == p,
    }
}
