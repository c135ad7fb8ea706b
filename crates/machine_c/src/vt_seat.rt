ghost use Rattle.std.specs.Prelude.{◌≡◌, IfNone, IfSome};
ghost use Rattle.machine_c.specs.Started.{IsSeat, rights_of};

use vt_procs::ProcStart;

/// `struct vt_seat`: a process.
#[repr(C)]
#[derive(Clone, Copy, Debug, PartialEq, Eq)]
pub(crate) struct VtSeat {
    /// The console that it may handle without privilege, from 1 to 63, or 0 for none.
    pub home: u8,
    /// 1 if it may handle every console.
    pub privileged: u8,
    /// 0.
    pub spare: [u8; 6],
}

impl VtSeat {
    /// The process as the machine has it, if every number is in its range.
    pub(crate) fn rights(&self) -> Option<ProcStart>
        ensures some { IfSome result (λ rights. IsSeat self.now × (rights ≡ rights_of self.now)) }
        ensures none { IfNone result (¬ IsSeat self.now) }
    {
        if self.home > 63 || self.privileged > 1 || self.spare != [0; 6] {
            return None;
        }
        Some(ProcStart {
            home: self.home,
            privileged: self.privileged == 1,
        })
    }
}
