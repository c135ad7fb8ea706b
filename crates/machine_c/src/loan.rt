ghost use Rattle.std.specs.Prelude.{◌≡◌, ℕ, Option, None};
ghost use Rattle.machine.specs.MachineState.{MachineState};

use crate::lent_machine::LentMachine;
use std::marker::Model;
use std::mem;

/// A machine as a call gets it that only reads: a loan, in a struct of one pointer. Many loans of a machine may be
/// out at once, in many threads; each goes to one call at a time, and gives its part of the machine back at the call's
/// end. In contracts `value` is the machine, or `None`.
#[repr(C)]
#[derive(Drop)]
pub struct MachineLoan {
    pub(crate) at: *const u8,
    pub ghost value: { Option MachineState },
    pub ghost life: { ℕ },
    pub ghost part: { ℕ },
}

impl Model for MachineLoan {
    ghost use Rattle.raw_box.specs.Contents.{loan};
    ghost use Rattle.machine.specs.contracts.machine.Machine.{the_row as machine_row};

    ghost also_owns = { λ h. loan machine_row h.at h.value h.life h.part };
}

impl MachineLoan {
    // A loan of nothing.
    fn none() -> MachineLoan
        ensures { result.value ≡ None }
    {
        MachineLoan {
            at: std::ptr::null(),
        }
    }

    // The loan, to be read.
    fn open(self) -> LentMachine
        ensures { (result.value ≡ self.value) × (result.life ≡ self.life) × (result.part ≡ self.part) }
    {
        let MachineLoan { at } = self;
        LentMachine { at }
    }

    /// Takes the loan, and leaves one of nothing.
    pub(crate) fn take(&mut self) -> LentMachine
        ensures old { (result.value ≡ self.old.value) × (result.life ≡ self.old.life) × (result.part ≡ self.old.part) }
        ensures new { self.new.value ≡ None }
    {
        mem::replace(self, MachineLoan::none()).open()
    }

    /// Puts a loan in the place of one of nothing.
    pub(crate) fn put(&mut self, lent: LentMachine)
        requires { self.old.value ≡ None }
        ensures { (self.new.value ≡ lent.value) × (self.new.life ≡ lent.life) × (self.new.part ≡ lent.part) }
    {
        *self = lent.close();
    }
}

unsafe impl Send for MachineLoan {}
