ghost use Rattle.std.specs.Prelude.{◌≡◌, ◌-◌, ◌≤◌};
ghost use Rattle.vt_base.specs.Limits.{descriptors};
ghost use Rattle.vt_base.specs.Range.{in_range};

use crate::DESCRIPTORS;
use std::marker::Model;

/// A descriptor of a process, from 0 to 15.
#[derive(Clone, Copy, Debug, PartialEq, Eq)]
pub struct Fd {
    n: u8,
}

impl Model for Fd {
    ghost use Rattle.std.specs.Prelude.{ℕ, ◌≤◌};

    ghost Value = { ℕ };

    ghost view = { λ c. c.n };

    ghost invariant = { λ c. c.n ≤ 15 };

    ghost inverse = { λ n. record { n = n } };
}

impl Fd {
    /// The descriptor of this number, if there is one.
    pub fn new(n: u16) -> Option<Fd>
        ensures { result ≡ in_range 0 (descriptors - 1) n }
    {
        if DESCRIPTORS <= usize::from(n) {
            return None;
        }
        Some(Fd { n: n as u8 })
    }

    /// The descriptor of a number that is known to be in the range.
    pub fn numbered(n: u16) -> Fd
        requires { n ≤ 15 }
        ensures { result ≡ n }
    {
        Fd { n: n as u8 }
    }

    /// Does nothing. It is called for its clause: the number is in its range.
    pub fn stays_in_range(self)
        ensures { self ≤ 15 }
    {}

    /// The number.
    pub fn get(self) -> u16
        ensures same { result ≡ self }
        ensures high { result ≤ 15 }
    {
        u16::from(self.n)
    }
}
