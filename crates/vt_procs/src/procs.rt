ghost use Rattle.std.specs.Prelude.{◌≡◌, ◌≤◌, true, Some, None, is_some, length, if◌then◌else◌};
ghost use Rattle.vt_procs.specs.Callers.{IsFit, IsFitCount, accepts, caller_at, callers_of, console_of, after_exit, free_fd, has_open, is_live, is_opened, after_open, plain_caller, after_close, caller_at_start};
ghost use Rattle.vt_procs.specs.Rights.{after_admission, has_no_wait, has_nothing, is_plain};
ghost use Rattle.vt_procs.specs.Tickets.{with_accepter};

use crate::opens::NO_OPENS;
use crate::{ProcStart, Process, Waiting};
use std::marker::Model;
use vt_base::{CALLERS, CallerNo, ConsoleNo, Fd, PROCESSES, SigSet, Signal};

/// All callers: the keyboards and the processes.
#[derive(Debug, Drop)]
pub struct Procs {
    pub(crate) callers: [Process; CALLERS],
    pub(crate) accepter: Option<(CallerNo, Signal)>,
}

impl Model for Procs {
    ghost use Rattle.vt_procs.specs.Callers.{Callers};

    ghost Value = { Callers };

    ghost view = { λ p. record { list = p.callers; accepter = p.accepter } };

    ghost use Rattle.vt_procs.specs.Callers.{IsFit};

    ghost invariant = { λ p. IsFit (record { list = p.callers; accepter = p.accepter }) };
}

impl Procs {
    /// The start: this number of keyboards, and these processes. A keyboard is alive until it ends.
    pub fn start(list: &[ProcStart], keyboards: u8) -> Procs
        requires processes { length list.now ≤ 64 }
        requires keyboards { IsFitCount keyboards }
        ensures { result ≡ callers_of keyboards list.now }
    {
        let mut callers = [plain_caller(false, 0, false); CALLERS];
        for p in 0..CALLERS {
            callers[p] = caller_at_start(list, keyboards, p);
        }
        Procs {
            callers,
            accepter: None,
        }
    }

    /// Whether `p` lives.
    pub fn live(&self, p: CallerNo) -> bool
        ensures { result ≡ is_live self.now p }
    {
        self.callers[usize::from(p.get())].live
    }

    /// The console that `p` may handle without privilege, or 0.
    pub fn home(&self, p: CallerNo) -> u8
        ensures { result ≡ (caller_at self.now p).home }
    {
        self.callers[usize::from(p.get())].home
    }

    /// Whether `p` may handle every console.
    pub fn privileged(&self, p: CallerNo) -> bool
        ensures { result ≡ (caller_at self.now p).privileged }
    {
        self.callers[usize::from(p.get())].privileged
    }

    /// Sets the console that `p` may handle without privilege, and whether it may handle every console.
    pub fn set_rights(&mut self, p: CallerNo, rights: ProcStart)
        ensures { self.new ≡ after_admission p rights self.old }
    {
        let caller = &mut self.callers[usize::from(p.get())];
        caller.home = rights.home;
        caller.privileged = rights.privileged;
    }

    /// The console of the descriptor, if that is open.
    pub fn console_of(&self, p: CallerNo, fd: u16) -> Option<ConsoleNo>
        ensures { result ≡ console_of self.now p fd }
    {
        let process = &self.callers[usize::from(p.get())];
        process.opens.at(fd)
    }

    /// The descriptor of this number, if it is open.
    pub fn number(&self, p: CallerNo, fd: u16) -> Option<Fd>
        ensures { result ≡ (if is_some (console_of self.now p fd) then Some fd else None) }
    {
        let process = &self.callers[usize::from(p.get())];
        process.opens.number(fd)
    }

    /// Opens the console at the lowest free descriptor, if there is one.
    pub fn add_open(&mut self, p: CallerNo, c: ConsoleNo) -> Option<Fd>
        ensures answer { result ≡ free_fd self.old p }
        ensures state { self.new ≡ after_open p c self.old }
    {
        let process = &mut self.callers[usize::from(p.get())];
        process.opens.add(c)
    }

    /// Closes the descriptor.
    pub fn shut(&mut self, p: CallerNo, fd: Fd)
        requires { is_some (console_of self.old p fd) ≡ true }
        ensures { self.new ≡ after_close p fd self.old }
    {
        let process = &mut self.callers[usize::from(p.get())];
        process.opens.shut(fd);
    }

    /// Whether `p` has the console open.
    pub fn has_open(&self, p: CallerNo, c: ConsoleNo) -> bool
        ensures { result ≡ has_open (caller_at self.now p).opens c }
    {
        let process = &self.callers[usize::from(p.get())];
        process.opens.has(c)
    }

    /// Whether any caller has the console open. It looks at every descriptor.
    pub fn opened(&self, c: ConsoleNo) -> bool
        ensures { result ≡ is_opened self.now c }
    {
        self.callers.iter().any(|caller| caller.opens.has(c))
    }

    /// Makes `p` the process to which KeyboardSignal sends this signal.
    pub fn accept(&mut self, p: CallerNo, s: Signal)
        requires { is_live self.old p ≡ true }
        ensures { self.new ≡ with_accepter p s self.old }
    {
        self.accepter = Some((p, s));
    }

    /// The process that accepts KeyboardSignal, and the signal that it gets.
    pub fn accepter(&self) -> Option<(CallerNo, Signal)>
        ensures accepter { result ≡ self.now.accepter }
        ensures live { IsFit self.now }
    {
        self.accepter
    }

    /// The end of a caller: it loses its descriptors, its wait and its pending signals, and KeyboardSignal
    /// sends it nothing.
    pub fn end(&mut self, p: CallerNo)
        ensures { self.new ≡ after_exit p self.old }
    {
        if self.accepts(p) {
            self.accepter = None;
        }
        let caller = &mut self.callers[usize::from(p.get())];
        *caller = plain_caller(false, caller.home, caller.privileged);
    }

    /// Whether `p` is alive, has nothing open, no signal pending and no wait, and doesn't accept the key
    /// signal. It looks at every descriptor.
    pub fn has_nothing(&self, p: CallerNo) -> bool
        ensures { result ≡ has_nothing self.now p }
    {
        is_plain(&self.callers[usize::from(p.get())]) && !self.accepts(p)
    }

    // Whether `p` accepts the key signal.
    fn accepts(&self, p: CallerNo) -> bool
        ensures { result ≡ accepts p self.now.accepter }
    {
        match &self.accepter {
            Some(accepter) => accepter.0 == p,
            None => false,
        }
    }
}

// A caller that has nothing open, no signal pending and no ticket.
fn plain_caller(live: bool, home: u8, privileged: bool) -> Process
    ensures { result ≡ plain_caller live home privileged }
{
    Process {
        live,
        home,
        privileged,
        opens: NO_OPENS,
        pending: SigSet::empty(),
        waiting: Waiting::Nothing,
    }
}

// Whether a caller is alive, and has nothing open, no signal pending and no wait.
fn is_plain(process: &Process) -> bool
    ensures { result ≡ is_plain process.now }
{
    process.live
        && !process.opens.any()
        && process.pending.bits() == 0
        && has_no_wait(&process.waiting)
}

fn has_no_wait(waiting: &Waiting) -> bool
    ensures { result ≡ has_no_wait waiting.now }
{
    match waiting {
        Waiting::Nothing => true,
        Waiting::Open(_) | Waiting::Done | Waiting::Broken => false,
    }
}

// The caller of number `p` at the start.
fn caller_at_start(list: &[ProcStart], keyboards: u8, p: usize) -> Process
    ensures { result ≡ caller_at_start keyboards list.now p }
{
    if p == 0 {
        return plain_caller(0 < keyboards, 0, false);
    }
    if PROCESSES < p {
        return plain_caller(p - PROCESSES < usize::from(keyboards), 0, false);
    }
    match list.get(p - 1) {
        Some(start) => plain_caller(true, start.home, start.privileged),
        None => plain_caller(false, 0, false),
    }
}
