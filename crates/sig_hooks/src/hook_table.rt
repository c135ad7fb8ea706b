ghost use Rattle.std.specs.Prelude.{◌≡◌, ◌≤◌, ℕ, replicate};
ghost use Rattle.sig_hooks.specs.Hooks.{act_of, with_act};
ghost use Rattle.sig_hooks.specs.declared.act.Act.{Act};

use crate::Act;
use std::marker::Model;
use vt_base::{SIGNALS, Signal};

/// An act for each signal. Contracts see the list of acts, which begins with that of signal 1.
#[derive(Clone, Copy, Debug, PartialEq, Eq)]
pub struct HookTable {
    places: [Act; SIGNALS],
}

impl Model for HookTable {
    ghost use Rattle.std.specs.Prelude.{List};
    ghost use Rattle.sig_hooks.specs.declared.act.Act.{Act};

    ghost Value = { List Act };

    ghost view = { λ t. t.places };

    ghost inverse = { λ l. record { places = l } };
}

impl HookTable {
    /// The act `Nothing` for every signal.
    pub fn empty() -> HookTable
        ensures table { result ≡ replicate 64 Act.Nothing }
        ensures each { (n : ℕ) → 1 ≤ n → n ≤ 64 → act_of result n ≡ Act.Nothing }
    {
        HookTable {
            places: [Act::Nothing; SIGNALS],
        }
    }

    /// Changes the act of one signal.
    pub fn set(&mut self, s: Signal, a: Act)
        ensures { self.new ≡ with_act self.old s a }
    {
        self.places[usize::from(s.get() - 1)] = a;
    }

    /// The act of the signal.
    pub fn act(&self, s: Signal) -> Act
        ensures { result ≡ act_of self.now s }
    {
        self.places[usize::from(s.get() - 1)]
    }
}
