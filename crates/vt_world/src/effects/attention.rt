//! Signals that are sent, and the attention key.
ghost use Rattle.std.specs.Prelude.{◌≡◌, ℕ, ◌<◌, ◌≤◌, ◌+◌, ◌*◌, [], false, length, slice_index_or, if◌then◌else◌};
ghost use Rattle.vt_switch.specs.Acts.{End};
ghost use Rattle.vt_world.specs.Deeds.{By, apply_deeds, apply_deed};
ghost use Rattle.vt_world.specs.Typing.{attention_deeds, signal_deed, uses};

use crate::World;
use vt_base::{CallerNo, ConsoleNo, PROCESSES, Signal};

/// SIGKILL, which ends its process (signal(7)).
pub(crate) const SIGKILL: u16 = 9;

/// The places for processes by their numbers.
const PROCESS_PLACES: usize = PROCESSES + 1;

impl World {
    /// Sends a signal.
    pub(crate) fn send(&mut self, p: CallerNo, signal: Signal)
        requires { self.old.trace.marks ≡ [] }
        ensures { self.new ≡ apply_deed self.old (signal_deed p signal) }
    {
        if signal.get() == SIGKILL {
            self.end(p);
        } else {
            self.raise(p, signal);
        }
    }

    /// The attention key: ends every process that uses the console, and lets the console show text.
    pub(crate) fn secure_attention(&mut self, n: ConsoleNo)
        requires { self.old.trace.marks ≡ [] }
        ensures { self.new ≡ apply_deeds self.old (attention_deeds self.old n) }
    {
        let users = self.users(n);
        for p in 1..PROCESS_PLACES {
            self.end_user(p, users[p]);
        }
        self.show(n, false);
    }

    // Ends the caller with the number, if it uses the console. The callers before it made at most three
    // marks each.
    fn end_user(&mut self, p: usize, uses: bool)
        requires number { p ≤ 64 }
        requires room { length self.old.trace.marks ≤ 3 * p }
        ensures state { self.new ≡ (if uses then apply_deed self.old (By (End p)) else self.old) }
        ensures room { length self.new.trace.marks ≤ 3 * (p + 1) }
    {
        let p = CallerNo::numbered(p as u16);
        if uses {
            self.end(p);
        }
    }

    // Whether each process uses the console, by its number. The first place is a keyboard's.
    fn users(&self, n: ConsoleNo) -> [bool; PROCESS_PLACES]
        ensures { (p : ℕ) → p < 65 → slice_index_or result p false ≡ uses self.now n p }
    {
        let mut users = [false; PROCESS_PLACES];
        for p in 0..PROCESS_PLACES {
            users[p] = self.uses(p, n);
        }
        users
    }

    // Whether the caller with the number is alive, and handles the switches of the console or has
    // it open.
    fn uses(&self, p: usize, n: ConsoleNo) -> bool
        requires { p ≤ 64 }
        ensures { result ≡ uses self.now n p }
    {
        let p = CallerNo::numbered(p as u16);
        self.procs.live(p) && (self.switch.owns(p, n) || self.procs.has_open(p, n))
    }
}
