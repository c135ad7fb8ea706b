//! The display: allocated consoles, requests, and the handling of switches.
ghost use Rattle.std.specs.Prelude.{◌≡◌, ◌≤◌, ◌+◌, ◌^◌, ◌==◌, [], true, false, not, nat_lt, find, Some, None, IfSome, IsTrue, if◌then◌else◌};
ghost use Rattle.std.specs.List.{range_with_len};
ghost use Rattle.vt_events.specs.declared.event.Event.TheVariants as event;
ghost use Rattle.vt_procs.specs.Callers.{is_live, is_opened};
ghost use Rattle.vt_switch.specs.Display.{is_allocated};
ghost use Rattle.vt_world.specs.Rows.{allocated_mask, lowest_unopened};
ghost use Rattle.vt_world.specs.Lent.{answer_of, grid_after};
ghost use Rattle.vt_world.specs.Spare.{HasGrid, extent, is_console, needed_grid};
ghost use Rattle.vt_world.specs.Step.{HasRowResult, own_row_result};
ghost use Rattle.vt_world.specs.Refusals.{console_by_number};

use crate::World;
use crate::rows::refusals::check_sense;
use crate::wanted::Wanted;
use vt_base::{CONSOLES, CallerNo, ConsoleNo, Errno, VtMode};
use vt_events::Reply;
use vt_grid::Grid;

impl World {
    /// Requests the display for console `n` (ioctl_console(2), VT_ACTIVATE).
    pub(crate) fn activate(
        &mut self,
        p: CallerNo,
        fd: u16,
        n: u16,
        grid: &mut Option<Grid>,
    ) -> Result<Reply, Errno>
        requires clear { self.old.trace.marks ≡ [] }
        requires grid { HasGrid (needed_grid (extent self.old.rows self.old.cols) (event.Activate fd n)) grid.old }
        ensures effect { HasRowResult (own_row_result self.old p (event.Activate fd n)) self.new result }
        ensures grid { grid.new ≡ grid_after self.old p (event.Activate fd n) (answer_of result) grid.old }
    {
        self.owned_console(p, fd)?;
        let to = ConsoleNo::new(n).ok_or(Errno::Nxio)?;
        if self.switch.locked() {
            return Err(Errno::Busy);
        }
        self.allocate(to, grid);
        self.request(Wanted::Number(n));
        Ok(Reply::Done)
    }

    /// Frees console `n`, or all that are not in use if `n` is 0 (ioctl_console(2),
    /// VT_DISALLOCATE).
    pub(crate) fn disallocate(&mut self, p: CallerNo, fd: u16, n: u16) -> Result<Reply, Errno>
        ensures { HasRowResult (own_row_result self.old p (event.Disallocate fd n)) self.new result }
    {
        self.owned_console(p, fd)?;
        let c = self.named(n).ok_or(Errno::Nxio)?;
        if n == 0 {
            self.free_unused();
            return Ok(Reply::Done);
        }
        if self.in_use(c) {
            return Err(Errno::Busy);
        }
        self.free(c);
        Ok(Reply::Done)
    }

    /// The lowest console that no process has open, 0 if there is none (ioctl_console(2),
    /// VT_OPENQRY).
    pub(crate) fn open_query(&mut self, p: CallerNo, fd: u16) -> Result<Reply, Errno>
        ensures { HasRowResult (own_row_result self.old p (event.OpenQry fd)) self.new result }
    {
        self.opened(p, fd)?;
        Ok(Reply::Num(u32::from(self.lowest_unopened())))
    }

    /// The console in front, and those that are allocated (ioctl_console(2), VT_GETSTATE).
    pub(crate) fn get_state(&mut self, p: CallerNo, fd: u16) -> Result<Reply, Errno>
        ensures { HasRowResult (own_row_result self.old p (event.GetState fd)) self.new result }
    {
        self.opened(p, fd)?;
        let front = self.switch.front().get() as u8;
        let mask = self.allocated_mask();
        Ok(Reply::State { front, mask })
    }

    /// Locks switching (ioctl_console(2), VT_LOCKSWITCH).
    pub(crate) fn lock_switch(&mut self, p: CallerNo, fd: u16) -> Result<Reply, Errno>
        ensures { HasRowResult (own_row_result self.old p (event.LockSwitch fd)) self.new result }
    {
        self.check_lock_right(p, fd)?;
        self.lock(true);
        Ok(Reply::Done)
    }

    /// Unlocks switching (ioctl_console(2), VT_UNLOCKSWITCH).
    pub(crate) fn unlock_switch(&mut self, p: CallerNo, fd: u16) -> Result<Reply, Errno>
        ensures { HasRowResult (own_row_result self.old p (event.UnlockSwitch fd)) self.new result }
    {
        self.check_lock_right(p, fd)?;
        self.lock(false);
        Ok(Reply::Done)
    }

    /// Lets the descriptor's console show text, or graphics (ioctl_console(2), KDSETMODE).
    pub(crate) fn set_kd(&mut self, p: CallerNo, fd: u16, m: u16) -> Result<Reply, Errno>
        ensures { HasRowResult (own_row_result self.old p (event.SetKd fd m)) self.new result }
    {
        let c = self.owned_console(p, fd)?;
        check_sense(m <= 1)?;
        self.show(c, m == 1);
        Ok(Reply::Done)
    }

    /// Whether the descriptor's console shows text, or graphics (ioctl_console(2), KDGETMODE).
    pub(crate) fn get_kd(&mut self, p: CallerNo, fd: u16) -> Result<Reply, Errno>
        ensures { HasRowResult (own_row_result self.old p (event.GetKd fd)) self.new result }
    {
        let c = self.opened(p, fd)?;
        Ok(Reply::Num(u32::from(self.switch.kd(c))))
    }

    /// Sets how the switches of the descriptor's console are handled (ioctl_console(2),
    /// VT_SETMODE).
    pub(crate) fn set_mode(&mut self, p: CallerNo, fd: u16, m: VtMode) -> Result<Reply, Errno>
        requires { is_live self.old.callers p ≡ true }
        ensures { HasRowResult (own_row_result self.old p
            (event.SetMode fd m.mode m.waitv m.relsig m.acqsig m.frsig)) self.new result }
    {
        let c = self.owned_console(p, fd)?;
        if !self.handle(c, p, m) {
            return Err(Errno::Inval);
        }
        Ok(Reply::Done)
    }

    /// How the switches of the descriptor's console are handled (ioctl_console(2), VT_GETMODE).
    pub(crate) fn get_mode(&mut self, p: CallerNo, fd: u16) -> Result<Reply, Errno>
        ensures { HasRowResult (own_row_result self.old p (event.GetMode fd)) self.new result }
    {
        let c = self.opened(p, fd)?;
        Ok(Reply::Mode(self.switch.mode(c)))
    }

    /// The answer of the process that handles the descriptor's console (ioctl_console(2),
    /// VT_RELDISP).
    pub(crate) fn release(&mut self, p: CallerNo, fd: u16, arg: u16) -> Result<Reply, Errno>
        requires { self.old.trace.marks ≡ [] }
        ensures { HasRowResult (own_row_result self.old p (event.RelDisp fd arg)) self.new result }
    {
        let c = self.owned_console(p, fd)?;
        if !self.release_console(c, p, arg) {
            return Err(Errno::Inval);
        }
        Ok(Reply::Done)
    }

    /// The console that a number names: the one in front if it is 0.
    pub(crate) fn named(&self, n: u16) -> Option<ConsoleNo>
        ensures console { result ≡ (if nat_lt 63 n then None else Some (console_by_number self.now n)) }
        ensures new { IfSome result (λ c. is_allocated self.now.display c ≡ false
            → IsTrue (is_console n)) }
    {
        if n == 0 {
            return Some(self.switch.front());
        }
        ConsoleNo::new(n)
    }

    fn lowest_unopened(&self) -> u16
        ensures { result ≡ lowest_unopened self.now }
    {
        self.first_unopened(1, CONSOLES as u16).unwrap_or(0)
    }

    // The lowest console that no process has open, of `len` consoles from `low` on.
    fn first_unopened(&self, low: u16, len: u16) -> Option<u16>
        requires low { 1 ≤ low }
        requires high { low + len ≤ 64 }
        ensures { result ≡ find (λ c. not (is_opened self.now.callers c)) (range_with_len low len) }
    {
        for k in 0..len {
            if !self.is_opened(ConsoleNo::numbered(low + k)) {
                return Some(low + k);
            }
        }
        None
    }

    fn is_opened(&self, c: ConsoleNo) -> bool
        ensures { result ≡ is_opened self.now.callers c }
    {
        self.procs.opened(c)
    }

    fn allocated_mask(&self) -> u64
        ensures { result ≡ allocated_mask self.now.display }
    {
        let mut mask = 0;
        for k in 0..CONSOLES as u16 {
            mask += self.allocated_bit(ConsoleNo::numbered(k + 1));
        }
        mask
    }

    // The bit of a console, 0 if it isn't allocated.
    fn allocated_bit(&self, c: ConsoleNo) -> u64
        ensures bit { result ≡ (if is_allocated self.now.display c then 2 ^ c else 0) }
        ensures bound { result ≤ 2 ^ c }
    {
        let n = c.get();
        if self.switch.allocated(c) { 1 << n } else { 0 }
    }
}
