ghost use Rattle.std.specs.Prelude.{◌≡◌, ◌≢◌, ℕ, MatchOption, Option, None, Some};
ghost use Rattle.std.specs.Option.{is_none};
ghost use Rattle.machine.specs.MachineState.{MachineState};

use crate::loan::MachineLoan;
use machine::Machine;
use std::marker::Model;

/// A loan while a call reads it.
pub(crate) struct LentMachine {
    pub(crate) at: *const u8,
    pub ghost value: { Option MachineState },
    pub ghost life: { ℕ },
    pub ghost part: { ℕ },
}

impl Model for LentMachine {
    ghost use Rattle.raw_box.specs.Contents.{contents_lent, loan};
    ghost use Rattle.machine.specs.contracts.machine.Machine.{the_row as machine_row};

    ghost also_owns = { λ h. loan machine_row h.at h.value h.life h.part };

    ghost also_shares = { λ h _ κ. contents_lent machine_row h.at h.value κ };
}

impl LentMachine {
    /// The loan again.
    pub(crate) fn close(self) -> MachineLoan
        ensures { (result.value ≡ self.value) × (result.life ≡ self.life) × (result.part ≡ self.part) }
    {
        let LentMachine { at } = self;
        MachineLoan { at }
    }

    /// The machine, if one is lent.
    pub(crate) fn get(&self) -> Option<&Machine>
        ensures { MatchOption result (self.now.value ≡ None) (λ machine. self.now.value ≡ Some machine.now) }
    {
        if self.is_empty() {
            None
        } else {
            Some(self.machine())
        }
    }

    // Whether no machine is lent.
    fn is_empty(&self) -> bool
        ensures { result ≡ is_none self.now.value }
    {
        self.at.is_null()
    }

    // The machine that is lent.
    fn machine(&self) -> &Machine
        requires { self.now.value ≢ None }
        ensures { self.now.value ≡ Some result.now }
    {
        unsafe { &*(self.at as *const Machine) }
    }
}
