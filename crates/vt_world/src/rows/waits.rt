//! Waits: a process has one until it asks how the wait ended.
ghost use Rattle.std.specs.Prelude.{◌≡◌, ◌==◌, [], ◌∷◌, not, Some, None, true, if◌then◌else◌};
ghost use Rattle.vt_base.specs.declared.errno.Errno.TheVariants.{Intr};
ghost use Rattle.vt_events.specs.declared.event.Event.TheVariants as event;
ghost use Rattle.vt_events.specs.declared.reply.Reply.TheVariants as reply;
ghost use Rattle.vt_world.specs.Deeds.{Own, Waits};
ghost use Rattle.vt_world.specs.Rows.{row_of};
ghost use Rattle.vt_world.specs.Step.{HasRowResult, row_result, own_row_result};
ghost use Rattle.vt_world.specs.Refusals.{caller};

use crate::World;
use vt_base::{CallerNo, ConsoleNo, Errno};
use vt_events::Reply;
use vt_procs::{Ticket, Waited};

impl World {
    /// Begins a wait for input of the descriptor's console. This project's own.
    pub(crate) fn wait_input(&mut self, p: CallerNo, fd: u16) -> Result<Reply, Errno>
        ensures { HasRowResult (own_row_result self.old p (event.WaitInput fd)) self.new result }
    {
        let c = self.opened(p, fd)?;
        if self.inputs.queue(c).is_empty() {
            return self.wait(p, Ticket::Input(c));
        }
        Ok(Reply::Done)
    }

    /// Begins a wait for console `n` to be in front (ioctl_console(2), VT_WAITACTIVE).
    pub(crate) fn wait_active(&mut self, p: CallerNo, fd: u16, n: u16) -> Result<Reply, Errno>
        ensures { HasRowResult (own_row_result self.old p (event.WaitActive fd n)) self.new result }
    {
        self.owned_console(p, fd)?;
        let to = ConsoleNo::new(n).ok_or(Errno::Nxio)?;
        if n != self.switch.front().get() {
            return self.wait(p, Ticket::Active(to));
        }
        Ok(Reply::Done)
    }

    /// Begins a wait for a signal (pause(2)).
    pub(crate) fn wait_signal(&mut self, p: CallerNo) -> Result<Reply, Errno>
        ensures { HasRowResult (own_row_result self.old p event.WaitSignal) self.new result }
    {
        self.wait(p, Ticket::AnySignal)
    }

    /// How the wait of `p` ended, which `p` then no longer has. This project's own.
    pub(crate) fn wait_end(&mut self, p: CallerNo) -> Result<Reply, Errno>
        ensures { HasRowResult (own_row_result self.old p event.WaitEnd) self.new result }
    {
        let reply = match self.procs.ticket(p) {
            Waited::None => return Err(Errno::Inval),
            Waited::Still => return Err(Errno::Again),
            Waited::Done => Reply::Done,
            Waited::Broken => Reply::Err(Errno::Intr),
        };
        let _ = self.procs.collect(p);
        Ok(reply)
    }

    // Begins a wait, unless a signal is pending.
    fn wait(&mut self, p: CallerNo, t: Ticket) -> Result<Reply, Errno>
        ensures { HasRowResult (row_result self.old
            (if not ((caller self.old p).pending == 0) then Some Intr else None)
            (row_of reply.Wait (Own (Waits p t) ∷ []))) self.new result }
    {
        if self.procs.signalled(p) {
            return Err(Errno::Intr);
        }
        self.procs.wait(p, t);
        Ok(Reply::Wait)
    }
}
