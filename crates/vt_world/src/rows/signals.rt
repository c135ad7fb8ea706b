//! Signals, and the end of a caller.
ghost use Rattle.std.specs.Prelude.{◌≡◌, [], true};
ghost use Rattle.vt_base.specs.Range.{in_range};
ghost use Rattle.vt_events.specs.declared.event.Event.TheVariants as event;
ghost use Rattle.vt_procs.specs.Callers.{is_live};
ghost use Rattle.vt_world.specs.Step.{HasRowResult, own_row_result};

use crate::World;
use crate::effects::attention::SIGKILL;
use crate::rows::refusals::check_sense;
use vt_base::{CallerNo, Errno, PROCESSES, Signal};
use vt_events::Reply;

impl World {
    /// From now on the key signal is this signal to `p` (ioctl_console(2), KDSIGACCEPT).
    pub(crate) fn accept(&mut self, p: CallerNo, fd: u16, s: u16) -> Result<Reply, Errno>
        requires { is_live self.old.callers p ≡ true }
        ensures { HasRowResult (own_row_result self.old p (event.Accept fd s)) self.new result }
    {
        self.owned_console(p, fd)?;
        check_sense(s != SIGKILL)?;
        let signal = Signal::new(s).ok_or(Errno::Inval)?;
        self.procs.accept(p, signal);
        Ok(Reply::Done)
    }

    /// Takes the pending signals of `p`. This project's own.
    pub(crate) fn take_signals(&mut self, p: CallerNo) -> Result<Reply, Errno>
        ensures { HasRowResult (own_row_result self.old p event.TakeSignals) self.new result }
    {
        Ok(Reply::Sigs(self.procs.take_signals(p)))
    }

    /// Sends signal `s` to process `q` (kill(2)).
    pub(crate) fn kill(&mut self, p: CallerNo, q: u16, s: u16) -> Result<Reply, Errno>
        requires { self.old.trace.marks ≡ [] }
        ensures { HasRowResult (own_row_result self.old p (event.Kill q s)) self.new result }
    {
        if !self.procs.privileged(p) && q != p.get() {
            return Err(Errno::Perm);
        }
        let target = process_of(q).ok_or(Errno::Nxio)?;
        let signal = Signal::new(s).ok_or(Errno::Inval)?;
        if !self.procs.live(target) {
            return Err(Errno::Srch);
        }
        self.send(target, signal);
        Ok(Reply::Done)
    }

    /// Ends the caller (exit(2)). The keys of a keyboard are released, and no bytes are sent.
    pub(crate) fn exit(&mut self, p: CallerNo) -> Result<Reply, Errno>
        requires { self.old.trace.marks ≡ [] }
        ensures { HasRowResult (own_row_result self.old p event.Exit) self.new result }
    {
        self.end(p);
        self.board.unplug(p);
        Ok(Reply::Done)
    }
}

// The process with the number, if there is one: keyboards are no processes.
fn process_of(q: u16) -> Option<CallerNo>
    ensures { result ≡ in_range 1 64 q }
{
    if q == 0 || PROCESSES < usize::from(q) {
        return None;
    }
    CallerNo::new(q)
}
