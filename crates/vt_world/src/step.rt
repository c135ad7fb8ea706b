ghost use Rattle.std.specs.Prelude.{◌≡◌, ◌≤◌, [], true, false, IfOk, length};
ghost use Rattle.vt_events.specs.Charge.{greatest_reply, text_of_reply};
ghost use Rattle.vt_procs.specs.Callers.{is_live};
ghost use Rattle.vt_world.specs.Lent.{answer_of, grid_after};
ghost use Rattle.vt_world.specs.Spare.{Fits, HasGrid, empty_with, extent, needed_grid};
ghost use Rattle.vt_world.specs.Step.{HasOutcome, HasRowResult, row_result_after, outcome_of_result, own_row_result, plain_answer, step, text_of_answer};
ghost use Rattle.vt_world.specs.Refusals.{common_refusals, ends_wait, error_of, first_refusal, may_make};

use crate::spare::Spare;
use crate::world::World;
use vt_base::{Bytes, CallerNo, Errno, VtMode};
use vt_events::{Event, Reply};
use vt_grid::Grid;
use vt_procs::Waited;

impl World {
    /// Takes a call of the caller and returns the answer, and the spare's second buffer, which it
    /// doesn't use. It always returns, and allocates no memory.
    pub fn step(&mut self, caller: CallerNo, event: &Event, spare: Spare) -> (Reply, Bytes)
        requires fits { Fits self.old.rows self.old.cols event.now spare }
        ensures step { HasOutcome (step self.old caller event.now) self.new result.0 }
        ensures bytes { length (text_of_reply result.0) ≤ greatest_reply event.now }
        ensures for_copy { result.1 ≡ spare.for_copy }
    {
        let mut spare = spare;
        let answer = self.step_with(caller, event, &mut spare);
        (answer, spare.for_copy)
    }

    /// The same step with memory that is lent. The grid stays if the event doesn't use it; if a screen
    /// is resized onto it, the screen's old grid takes its place. The first buffer is used up, the second stays.
    pub fn step_with(&mut self, caller: CallerNo, event: &Event, spare: &mut Spare) -> Reply
        requires fits { Fits self.old.rows self.old.cols event.now spare.old }
        ensures step { HasOutcome (step self.old caller event.now) self.new result }
        ensures bytes { length (text_of_reply result) ≤ greatest_reply event.now }
        ensures grid { spare.new.grid ≡ grid_after self.old caller event.now result spare.old.grid }
        ensures reply { spare.new.reply ≡ empty_with 0 }
        ensures for_copy { spare.new.for_copy ≡ spare.old.for_copy }
    {
        let reply = spare.take_reply();
        self.step_on(caller, event, &mut spare.grid, reply)
    }

    /// The same step with a grid that is lent. The grid stays if the event doesn't use it; if a
    /// screen is resized onto it, the screen's old grid takes its place.
    pub(crate) fn step_on(
        &mut self,
        caller: CallerNo,
        event: &Event,
        grid: &mut Option<Grid>,
        reply: Bytes,
    ) -> Reply
        requires grid { HasGrid (needed_grid (extent self.old.rows self.old.cols) event.now) grid.old }
        requires reply { greatest_reply event.now ≤ reply.room }
        ensures step { HasOutcome (step self.old caller event.now) self.new result }
        ensures bytes { length (text_of_reply result) ≤ greatest_reply event.now }
        ensures grid { grid.new ≡ grid_after self.old caller event.now result grid.old }
    {
        self.trace.clear();
        match self.may_take(caller, event) {
            Ok(()) => {
                let answer = self.carry_out(caller, event, grid, reply);
                self.finish(caller, answer)
            }
            Err(errno) => Reply::Err(errno),
        }
    }

    // Answers a refused event by its error. Applies the idle rule after any other event.
    fn finish(&mut self, p: CallerNo, answer: Result<Reply, Errno>) -> Reply
        ensures step { HasOutcome (outcome_of_result self.old (plain_answer answer)) self.new result }
        ensures bytes { text_of_reply result ≡ text_of_answer answer }
        ensures answer { result ≡ answer_of answer }
    {
        match answer {
            Ok(reply) => {
                self.apply_idle_rule(p);
                reply
            }
            Err(errno) => Reply::Err(errno),
        }
    }

    // The tests of every event. They come before the event's own.
    fn may_take(&self, caller: CallerNo, event: &Event) -> Result<(), Errno>
        ensures first { error_of result ≡ first_refusal (common_refusals self.now caller event.now) }
        ensures live { IfOk result (λ passed. is_live self.now.callers caller ≡ true) }
    {
        if !self.procs.live(caller) {
            return Err(Errno::Srch);
        }
        if !may_make(caller, event) {
            return Err(Errno::Notty);
        }
        if self.procs.ticket(caller) != Waited::None && !ends_wait(event) {
            return Err(Errno::Inval);
        }
        Ok(())
    }

    // Carries out an event that the caller may make. Each arm is a rule of the table of events.
    fn carry_out(
        &mut self,
        p: CallerNo,
        event: &Event,
        grid: &mut Option<Grid>,
        reply: Bytes,
    ) -> Result<Reply, Errno>
        requires clear { self.old.trace.marks ≡ [] }
        requires live { is_live self.old.callers p ≡ true }
        requires grid { HasGrid (needed_grid (extent self.old.rows self.old.cols) event.now) grid.old }
        requires reply { greatest_reply event.now ≤ reply.room }
        ensures effect { HasRowResult (own_row_result self.old p event.now) self.new result }
        ensures bytes { length (text_of_answer result) ≤ greatest_reply event.now }
        ensures grid { grid.new ≡ grid_after self.old p event.now (answer_of result) grid.old }
    {
        match event {
            Event::Scan(b) => self.scan(p, *b),
            Event::Exit => self.exit(p),
            Event::OpenCon(n) => self.open(p, *n, grid),
            Event::CloseFd(fd) => self.close(p, *fd),
            Event::Write(fd, b) => self.write(p, *fd, b),
            Event::ReadIn(fd, most) => self.read_in(p, *fd, *most, reply),
            Event::WaitInput(fd) => self.wait_input(p, *fd),
            Event::WaitActive(fd, n) => self.wait_active(p, *fd, *n),
            Event::WaitSignal => self.wait_signal(p),
            Event::WaitEnd => self.wait_end(p),
            Event::Activate(fd, n) => self.activate(p, *fd, *n, grid),
            Event::Disallocate(fd, n) => self.disallocate(p, *fd, *n),
            Event::OpenQry(fd) => self.open_query(p, *fd),
            Event::GetState(fd) => self.get_state(p, *fd),
            Event::Resize(fd, rows, cols) => self.resize(p, *fd, *rows, *cols, grid),
            Event::LockSwitch(fd) => self.lock_switch(p, *fd),
            Event::UnlockSwitch(fd) => self.unlock_switch(p, *fd),
            Event::SetKd(fd, mode) => self.set_kd(p, *fd, *mode),
            Event::GetKd(fd) => self.get_kd(p, *fd),
            Event::SetMode(fd, mode, waitv, relsig, acqsig, frsig) => {
                let mode = VtMode {
                    mode: *mode,
                    waitv: *waitv,
                    relsig: *relsig,
                    acqsig: *acqsig,
                    frsig: *frsig,
                };
                self.set_mode(p, *fd, mode)
            }
            Event::GetMode(fd) => self.get_mode(p, *fd),
            Event::RelDisp(fd, arg) => self.release(p, *fd, *arg),
            Event::SetKb(fd, mode) => self.set_keyboard_mode(p, *fd, *mode),
            Event::GetKb(fd) => self.get_keyboard_mode(p, *fd),
            Event::SetMeta(fd, meta) => self.set_meta(p, *fd, *meta),
            Event::GetMeta(fd) => self.get_meta(p, *fd),
            Event::SetLed(fd, lights) => self.set_lights(p, *fd, *lights),
            Event::GetLed(fd) => self.get_lights(p, *fd),
            Event::SetFlags(fd, flags) => self.set_flags(p, *fd, *flags),
            Event::GetFlags(fd) => self.get_flags(p, *fd),
            Event::SetEntry(fd, table, code, kind, value) => {
                self.set_entry(p, *fd, *table, *code, *kind, *value)
            }
            Event::GetEntry(fd, table, code) => self.get_entry(p, *fd, *table, *code),
            Event::SetFunc(fd, i, b) => self.set_func(p, *fd, *i, b),
            Event::GetFunc(fd, i) => self.get_func(p, *fd, *i, reply),
            Event::SetDia(fd, b) => self.set_pairs(p, *fd, b),
            Event::GetDia(fd) => self.get_pairs(p, *fd, reply),
            Event::SetCode(fd, scan, code) => self.set_code(p, *fd, *scan, *code),
            Event::GetCode(fd, scan) => self.get_code(p, *fd, *scan),
            Event::Accept(fd, signal) => self.accept(p, *fd, *signal),
            Event::SetMap(fd, b) => self.set_map(p, *fd, b),
            Event::GetMap(fd) => self.get_map(p, *fd, reply),
            Event::SetPal(fd, b) => self.set_palette(p, *fd, b),
            Event::GetPal(fd) => self.get_palette(p, *fd, reply),
            Event::Dump(kind, n) => self.dump(p, *kind, *n, reply),
            Event::TakeSignals => self.take_signals(p),
            Event::Kill(q, signal) => self.kill(p, *q, *signal),
        }
    }
}

// Whether the caller can make such an event: keyboards make scans, processes make all others, and
// both may exit.
fn may_make(caller: CallerNo, event: &Event) -> bool
    ensures { result ≡ may_make caller event.now }
{
    match event {
        Event::Scan(_) => caller.is_keyboard(),
        Event::Exit => true,
        _ => !caller.is_keyboard(),
    }
}

// Whether a caller with a wait may make the event: it may only ask how the wait ended.
fn ends_wait(event: &Event) -> bool
    ensures { result ≡ ends_wait event.now }
{
    matches!(event, Event::WaitEnd)
}
