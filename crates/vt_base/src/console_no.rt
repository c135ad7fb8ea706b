ghost use Rattle.std.specs.List.{range_with_len};
ghost use Rattle.std.specs.Prelude.{◌≡◌, ◌≤◌};
ghost use Rattle.vt_base.specs.Limits.{consoles};
ghost use Rattle.vt_base.specs.Range.{in_range};

use crate::CONSOLES;
use std::marker::Model;

/// The number of a console, from 1 to 63.
#[derive(Clone, Copy, Debug, PartialEq, Eq)]
pub struct ConsoleNo {
    n: u8,
}

impl Model for ConsoleNo {
    ghost use Rattle.std.specs.Prelude.{ℕ, ◌≤◌};

    ghost Value = { ℕ };

    ghost view = { λ c. c.n };

    ghost invariant = { λ c. (1 ≤ c.n) × (c.n ≤ 63) };

    ghost inverse = { λ n. record { n = n } };
}

impl ConsoleNo {
    /// The console of this number, if there is one.
    pub fn new(n: u16) -> Option<ConsoleNo>
        ensures { result ≡ in_range 1 consoles n }
    {
        if n < 1 || CONSOLES < usize::from(n) {
            return None;
        }
        Some(ConsoleNo { n: n as u8 })
    }

    /// The console of a number that is known to be in the range.
    pub fn numbered(n: u16) -> ConsoleNo
        requires low { 1 ≤ n }
        requires high { n ≤ 63 }
        ensures { result ≡ n }
    {
        ConsoleNo { n: n as u8 }
    }

    /// Does nothing. It is called for its clause: the number is in its range.
    pub fn stays_in_range(self)
        ensures low { 1 ≤ self }
        ensures high { self ≤ 63 }
    {}

    /// The number.
    pub fn get(self) -> u16
        ensures same { result ≡ self }
        ensures low { 1 ≤ result }
        ensures high { result ≤ 63 }
    {
        u16::from(self.n)
    }

    /// All consoles in rising order.
    pub fn all() -> [ConsoleNo; CONSOLES]
        ensures { result ≡ range_with_len 1 consoles }
    {
        let mut all = [ConsoleNo { n: 1 }; CONSOLES];
        for i in 0..CONSOLES {
            all[i] = ConsoleNo { n: i as u8 + 1 };
        }
        all
    }
}
