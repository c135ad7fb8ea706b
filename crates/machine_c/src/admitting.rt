//! Gives a process to a program.
ghost use Rattle.std.specs.Prelude.{◌≡◌, IfNone, IfSome, None, Some};
ghost use Rattle.c_calls.specs.Codes.{NOTHING, RANGE};
ghost use Rattle.machine.specs.Admissions.{admission};
ghost use Rattle.machine_c.specs.Admitted.{after_admission, code_of};
ghost use Rattle.machine_c.specs.Started.{IsSeat, rights_of};

use crate::handle::MachineHandle;
use crate::numbers::caller_of;
use crate::vt_seat::VtSeat;
use c_calls::{change, code};
use machine::{AdmitError, Machine};
use std::alloc::Global;
use vt_procs::ProcStart;

/// Gives a process to a program with this home and privilege.
#[unsafe(no_mangle)]
pub extern "C" fn vt_machine_admit(
    h: &mut MachineHandle,
    process: u32,
    seat: &VtSeat,
    alloc: Global,
) -> u8
    ensures nothing { IfNone h.old.value ((result ≡ NOTHING) × (h.new.value ≡ None)) }
    ensures range { IfSome h.old.value (λ m. ¬ IsSeat seat.now → (result ≡ RANGE) × (h.new.value ≡ Some m)) }
    ensures given { IfSome h.old.value (λ m. IsSeat seat.now
        → let answer = admission process (rights_of seat.now) m in
        (result ≡ code_of answer)
        × (h.new.value ≡ Some (after_admission answer process (rights_of seat.now) m))) }
{
    change!(h, alloc, machine => admit(&mut machine, process, seat))
}

fn admit(machine: &mut Machine, process: u32, seat: &VtSeat) -> u8
    ensures range { ¬ IsSeat seat.now → (result ≡ RANGE) × (machine.new ≡ machine.old) }
    ensures given { IsSeat seat.now → let answer = admission process (rights_of seat.now) machine.old in
        (result ≡ code_of answer)
        × (machine.new ≡ after_admission answer process (rights_of seat.now) machine.old) }
{
    match seat.rights() {
        None => code::RANGE,
        Some(rights) => give(machine, process, rights),
    }
}

fn give(machine: &mut Machine, process: u32, rights: ProcStart) -> u8
    ensures { let answer = admission process rights machine.old in
        (result ≡ code_of answer) × (machine.new ≡ after_admission answer process rights machine.old) }
{
    let Some(p) = caller_of(process) else {
        let _few = machine.config().procs.as_slice();
        return code::RANGE;
    };
    match machine.admit(p, rights) {
        Ok(()) => code::OK,
        Err(AdmitError::Unlisted) => code::RANGE,
        Err(AdmitError::Ended) => code::MADE,
        Err(AdmitError::InUse) => code::MADE,
        Err(AdmitError::OtherRights) => code::MADE,
    }
}
