ghost use Rattle.std.specs.Prelude.{◌≡◌, ◌^◌, ◌-◌, ◌≤◌, IfSome, IfNone};
ghost use Rattle.vt_base.specs.Signals.{HasNoneFrom, IsFirstFrom, has_signal, with_signal};

use crate::{SIGNALS, Signal};
use bitflags::{Flag, Flags};
use std::marker::Model;

/// A set of signals. Contracts see it as a number: bit s - 1 is 1 if signal s is in the set.
#[derive(Clone, Copy, Debug, PartialEq, Eq)]
pub struct SigSet {
    bits: u64,
}

impl Model for SigSet {
    ghost use Rattle.std.specs.Prelude.{ℕ};

    ghost Value = { ℕ };

    ghost view = { λ s. s.bits };

    ghost inverse = { λ n. record { bits = n } };
}

// The bits have no names of their own: they are numbered.
impl Flags for SigSet {
    ghost use Rattle.std.specs.Prelude.{⊤, []};

    type Bits = u64;

    ghost exact = { ⊤ };

    ghost table = { [] };

    ghost set_of = { λ s. s };

    fn flags<'a>() -> &'a [Flag<SigSet>] {
        &[]
    }

    fn bits(&self) -> u64 {
        self.bits
    }

    fn from_bits_retain(bits: u64) -> SigSet {
        SigSet { bits }
    }
}

impl SigSet {
    /// The empty set.
    pub fn empty() -> SigSet
        ensures { result ≡ 0 }
    {
        SigSet { bits: 0 }
    }

    /// The set with the signal added.
    pub fn with(self, s: Signal) -> SigSet
        ensures { result ≡ with_signal self s }
    {
        let mut set = self;
        set.insert(alone(s));
        set
    }

    /// Whether the signal is in the set.
    pub fn has(self, s: Signal) -> bool
        ensures { result ≡ has_signal self s }
    {
        self.contains(alone(s))
    }

    /// The set as a number.
    pub fn bits(self) -> u64
        ensures { result ≡ self }
    {
        self.bits
    }

    /// The set of a number.
    pub fn from_bits(bits: u64) -> SigSet
        ensures { result ≡ bits }
    {
        SigSet { bits }
    }

    /// The first signal of the set from number `n` on.
    pub fn first_from(self, n: u16) -> Option<Signal>
        requires { 1 ≤ n }
        ensures found { IfSome result (IsFirstFrom self n) }
        ensures none { IfNone result (HasNoneFrom self n) }
    {
        if SIGNALS < usize::from(n) {
            return None;
        }
        let left = self.bits() >> (n - 1);
        if left == 0 {
            return None;
        }
        Signal::new(n + left.trailing_zeros() as u16)
    }
}

// The set of the signal alone.
fn alone(s: Signal) -> SigSet
    ensures { result ≡ 2 ^ (s - 1) }
{
    SigSet {
        bits: 1 << (s.get() - 1),
    }
}
