//! Processes that are given to programs.
ghost use Rattle.std.specs.Bool.{OnTrue};
ghost use Rattle.std.specs.Prelude.{◌≡◌, ◌<◌, ◌≤◌, ◌==◌, true, OnOk, OnErr, length, slice_set};
ghost use Rattle.machine.specs.Admissions.{admission, are_same, as_started, given, has_rights, is_listed};
ghost use Rattle.machine.specs.MachineState.{made_by};

use crate::admit_error::AdmitError;
use crate::machine::Machine;
use vt_base::{CallerNo, PROCESSES};
use vt_procs::{ProcList, ProcStart};

impl Machine {
    /// Whether it is a process of the machine's start.
    pub fn lists(&self, p: CallerNo) -> bool
        ensures same { result ≡ is_listed p self.now.start }
        ensures range { OnTrue result ((1 ≤ p) × (p ≤ length self.now.start.config.procs)) }
    {
        let n = usize::from(p.get());
        1 <= n && n <= self.config.procs.as_slice().len()
    }

    /// Gives the process to a program with these rights. A process that has made no call has them from then
    /// on, and the machine is as if it had started so. A process whose last program left nothing behind can
    /// be given to another one with the same rights, and nothing changes.
    pub fn admit(&mut self, p: CallerNo, rights: ProcStart) -> Result<(), AdmitError>
        ensures answer { result ≡ admission p rights self.old }
        ensures given { OnOk result (self.new ≡ given p rights self.old) }
        ensures left { OnErr result (self.new ≡ self.old) }
    {
        if !self.lists(p) {
            return Err(AdmitError::Unlisted);
        }
        if !self.world.live(p) {
            return Err(AdmitError::Ended);
        }
        if self.is_silent(p) {
            self.start_as(p, rights);
            return Ok(());
        }
        if !self.world.is_unused(p) {
            return Err(AdmitError::InUse);
        }
        if !self.started_as(p, rights) {
            return Err(AdmitError::OtherRights);
        }
        Ok(())
    }

    // Whether the caller has made no call.
    fn is_silent(&self, p: CallerNo) -> bool
        ensures { result ≡ (made_by self.now p == 0) }
    {
        self.made[usize::from(p.get())] == 0
    }

    // Gives these rights to a process that has made no call, as from the start.
    fn start_as(&mut self, p: CallerNo, rights: ProcStart)
        requires process { 1 ≤ p }
        requires listed { p ≤ length self.old.start.config.procs }
        requires silent { (made_by self.old p == 0) ≡ true }
        ensures { self.new ≡ as_started p rights self.old }
    {
        let n = usize::from(p.get());
        self.config.procs = with_rights(self.config.procs.as_slice(), n - 1, rights);
        self.world.admit(p, rights);
    }

    // Whether the process started with these rights.
    fn started_as(&self, p: CallerNo, rights: ProcStart) -> bool
        requires process { 1 ≤ p }
        requires listed { p ≤ length self.now.start.config.procs }
        ensures { result ≡ has_rights p rights self.now.start }
    {
        let n = usize::from(p.get());
        are_same(rights, self.config.procs.as_slice()[n - 1])
    }
}

// The list with other rights at a place.
fn with_rights(list: &[ProcStart], at: usize, rights: ProcStart) -> ProcList
    requires inside { at < length list.now }
    requires few { length list.now ≤ 64 }
    ensures { result ≡ slice_set list.now at rights }
{
    let mut all = [ProcStart::default(); PROCESSES];
    let all = &mut all[..list.len()];
    all.copy_from_slice(list);
    all[at] = rights;
    ProcList::of(all)
}

// Whether both have the same home, and both or neither are privileged.
fn are_same(a: ProcStart, b: ProcStart) -> bool
    ensures { result ≡ are_same a b }
{
    a.home == b.home
        && (if a.privileged {
            b.privileged
        } else {
            !b.privileged
        })
}
