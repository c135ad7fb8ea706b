ghost use Rattle.std.specs.Prelude.{◌≡◌, MatchOption, Option, None, Some};
ghost use Rattle.machine.specs.MachineState.{MachineState};

use machine::Machine;
use raw_box::RawBox;
use std::alloc::Global;
use std::marker::Model;
use std::mem;

/// A machine as C holds it: a struct of one pointer, which is null or points to a machine that the handle owns.
/// In contracts `value` is that machine, or `None`.
#[repr(C)]
pub struct MachineHandle {
    at: *mut u8,
    alloc: Global,
    pub ghost value: { Option MachineState },
}

impl Model for MachineHandle {
    ghost use Rattle.raw_box.specs.Contents.{contents};
    ghost use Rattle.machine.specs.contracts.machine.Machine.{the_row as machine_row};

    ghost also_owns = { λ h. contents machine_row h.alloc h.at h.value };
}

impl MachineHandle {
    /// A handle that owns nothing.
    pub(crate) fn none(alloc: Global) -> MachineHandle
        ensures { result.value ≡ None }
    {
        MachineHandle {
            at: std::ptr::null_mut(),
            alloc,
        }
    }

    // A handle that owns the box's machine.
    fn of(raw: RawBox<Machine, Global>) -> MachineHandle
        ensures { result.value ≡ Some raw.value }
    {
        let RawBox { at, alloc } = raw;
        MachineHandle {
            at: at as *mut u8,
            alloc,
        }
    }

    // Takes the handle apart: the machine that it owns, or `None`.
    fn open(self) -> Option<RawBox<Machine, Global>>
        ensures { MatchOption result (self.value ≡ None) (λ raw. self.value ≡ Some raw.value) }
    {
        let MachineHandle { at, alloc } = self;
        if at.is_null() {
            None
        } else {
            Some(RawBox {
                at: at as *mut Machine,
                alloc,
            })
        }
    }

    /// Takes the machine out of the handle, if it owns one.
    pub(crate) fn take(&mut self, alloc: Global) -> Option<Box<Machine>>
        ensures old { MatchOption result (self.old.value ≡ None) (λ owned. self.old.value ≡ Some owned.value) }
        ensures new { self.new.value ≡ None }
    {
        match mem::replace(self, MachineHandle::none(alloc)).open() {
            Some(raw) => Some(raw.into_box()),
            None => None,
        }
    }

    /// Gives the handle this machine.
    pub(crate) fn put(&mut self, owned: Box<Machine>)
        ensures { self.new.value ≡ Some owned.value }
    {
        *self = MachineHandle::of(RawBox::of(owned));
    }
}

impl Drop for MachineHandle {
    fn drop(self) {
        match self.open() {
            Some(raw) => drop(raw.into_box()),
            None => {}
        }
    }
}

unsafe impl Send for MachineHandle {}
