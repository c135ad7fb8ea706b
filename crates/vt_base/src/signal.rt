ghost use Rattle.std.specs.Prelude.{◌≡◌, ◌≤◌};
ghost use Rattle.vt_base.specs.Limits.{signals};
ghost use Rattle.vt_base.specs.Range.{in_range};

use crate::SIGNALS;
use std::marker::Model;

/// The number of a signal, from 1 to 64.
#[derive(Clone, Copy, Debug, PartialEq, Eq)]
pub struct Signal {
    n: u8,
}

impl Model for Signal {
    ghost use Rattle.std.specs.Prelude.{ℕ, ◌≤◌};

    ghost Value = { ℕ };

    ghost view = { λ c. c.n };

    ghost invariant = { λ c. (1 ≤ c.n) × (c.n ≤ 64) };

    ghost inverse = { λ n. record { n = n } };
}

impl Signal {
    /// The signal of this number, if there is one.
    pub fn new(n: u16) -> Option<Signal>
        ensures { result ≡ in_range 1 signals n }
    {
        if n < 1 || SIGNALS < usize::from(n) {
            return None;
        }
        Some(Signal { n: n as u8 })
    }

    /// The signal of a number that is known to be in the range.
    pub fn numbered(n: u16) -> Signal
        requires low { 1 ≤ n }
        requires high { n ≤ 64 }
        ensures { result ≡ n }
    {
        Signal { n: n as u8 }
    }

    /// Does nothing. It is called for its clause: the number is in its range.
    pub fn stays_in_range(self)
        ensures low { 1 ≤ self }
        ensures high { self ≤ 64 }
    {}

    /// The number.
    pub fn get(self) -> u16
        ensures same { result ≡ self }
        ensures low { 1 ≤ result }
        ensures high { result ≤ 64 }
    {
        u16::from(self.n)
    }
}
