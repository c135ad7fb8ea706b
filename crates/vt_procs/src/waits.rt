//! Signals, and waits for a signal, for the display and for input.
ghost use Rattle.std.specs.List.{list_any};
ghost use Rattle.std.specs.Prelude.{◌≡◌, ◌==◌, not, if◌then◌else◌};
ghost use Rattle.vt_procs.specs.Callers.{caller_at};
ghost use Rattle.vt_procs.specs.Tickets.{all_ended_by, after_signal, can_go, after_wait_report, ended_by, after_input_on, is_for_display, is_for_input, is_open, waiting_after_report, after_raise, after_idle_rule, after_display_of, after_taking_signals, waited_of, waits, waits_for};
ghost use Rattle.vt_procs.specs.declared.waiting.Waiting.{Waiting};

use crate::ending::Ending;
use crate::{Process, Procs, Ticket, Waited, Waiting};
use vt_base::{CALLERS, CallerNo, ConsoleNo, SigSet, Signal};

impl Procs {
    /// Makes the signal pending for `p` and ends its open wait. Signal 9 is not taken: it ends its
    /// process (signal(7)), by [`Procs::end`].
    pub fn raise(&mut self, p: CallerNo, s: Signal)
        ensures { self.new ≡ after_raise p s self.old }
    {
        let process = &mut self.callers[usize::from(p.get())];
        process.pending = process.pending.with(s);
        process.waiting = after_signal(&process.waiting);
    }

    /// Whether a signal is pending for `p`.
    pub fn signalled(&self, p: CallerNo) -> bool
        ensures { result ≡ not ((caller_at self.now p).pending == 0) }
    {
        self.callers[usize::from(p.get())].pending.bits() != 0
    }

    /// The signals that are pending for `p`.
    pub fn signals_of(&self, p: CallerNo) -> SigSet
        ensures { result ≡ (caller_at self.now p).pending }
    {
        let caller = &self.callers[usize::from(p.get())];
        caller.pending
    }

    /// Takes the pending signals of `p`.
    pub fn take_signals(&mut self, p: CallerNo) -> SigSet
        ensures answer { result ≡ (caller_at self.old p).pending }
        ensures state { self.new ≡ after_taking_signals p self.old }
    {
        let process = &mut self.callers[usize::from(p.get())];
        let pending = process.pending;
        process.pending = SigSet::empty();
        pending
    }

    /// `p` begins a wait, in place of one that it has.
    pub fn wait(&mut self, p: CallerNo, t: Ticket)
        ensures { self.new ≡ waits p t self.old }
    {
        self.callers[usize::from(p.get())].waiting = Waiting::Open(t);
    }

    /// The answer that [`Procs::collect`] would give.
    pub fn ticket(&self, p: CallerNo) -> Waited
        ensures { result ≡ waited_of (caller_at self.now p).waiting }
    {
        waited_of(&self.callers[usize::from(p.get())].waiting)
    }

    /// The state of the wait of `p`.
    pub fn wait_of(&self, p: CallerNo) -> Waiting
        ensures { result ≡ (caller_at self.now p).waiting }
    {
        let caller = &self.callers[usize::from(p.get())];
        caller.waiting
    }

    /// Returns how the wait of `p` ended and removes the wait, unless it is still open.
    pub fn collect(&mut self, p: CallerNo) -> Waited
        ensures answer { result ≡ waited_of (caller_at self.old p).waiting }
        ensures state { self.new ≡ after_wait_report p self.old }
    {
        let process = &mut self.callers[usize::from(p.get())];
        let waited = waited_of(&process.waiting);
        process.waiting = waiting_after_report(&process.waiting);
        waited
    }

    /// The console got the display: each open wait for that ends with success. This call goes over the
    /// callers once, as the next two do.
    pub fn shown(&mut self, c: ConsoleNo)
        ensures { self.new ≡ after_display_of c self.old }
    {
        end_tickets(&mut self.callers, &Ending::Shown(c));
    }

    /// Bytes came to the console: each open wait for them ends with success.
    pub fn filled(&mut self, c: ConsoleNo)
        ensures { self.new ≡ after_input_on c self.old }
    {
        end_tickets(&mut self.callers, &Ending::Filled(c));
    }

    /// The idle rule: if every live caller waits, every open wait ends as by a signal.
    pub fn settle(&mut self)
        ensures { self.new ≡ after_idle_rule self.old }
    {
        if !self.goes_on() {
            end_tickets(&mut self.callers, &Ending::Idle);
        }
    }

    // Whether some live caller has no open ticket.
    fn goes_on(&self) -> bool
        ensures { result ≡ list_any can_go self.now.list }
    {
        self.callers.iter().any(can_go)
    }
}

// Ends the open tickets of all callers that end for this reason.
fn end_tickets(callers: &mut [Process; CALLERS], ending: &Ending)
    ensures { callers.new ≡ all_ended_by ending.now callers.old }
{
    for p in 0..CALLERS {
        callers[p].waiting = ended_by(ending, &callers[p].waiting);
    }
}

fn ended_by(ending: &Ending, waiting: &Waiting) -> Waiting
    ensures { result ≡ ended_by ending.now waiting.now }
{
    match ending {
        Ending::Shown(c) => after_success(waits_for_display(*c, waiting), waiting),
        Ending::Filled(c) => after_success(waits_for_input(*c, waiting), waiting),
        Ending::Idle => after_signal(waiting),
    }
}

fn after_success(ends: bool, waiting: &Waiting) -> Waiting
    ensures { result ≡ (if ends then Waiting.Done else waiting.now) }
{
    if ends { Waiting::Done } else { *waiting }
}

fn waits_for_display(c: ConsoleNo, waiting: &Waiting) -> bool
    ensures { result ≡ waits_for (is_for_display c) waiting.now }
{
    match waiting {
        Waiting::Open(ticket) => is_for_display(c, ticket),
        _ => false,
    }
}

fn waits_for_input(c: ConsoleNo, waiting: &Waiting) -> bool
    ensures { result ≡ waits_for (is_for_input c) waiting.now }
{
    match waiting {
        Waiting::Open(ticket) => is_for_input(c, ticket),
        _ => false,
    }
}

fn is_for_display(c: ConsoleNo, ticket: &Ticket) -> bool
    ensures { result ≡ is_for_display c ticket.now }
{
    match ticket {
        Ticket::Active(n) => *n == c,
        Ticket::Input(_) => false,
        Ticket::AnySignal => false,
    }
}

fn is_for_input(c: ConsoleNo, ticket: &Ticket) -> bool
    ensures { result ≡ is_for_input c ticket.now }
{
    match ticket {
        Ticket::Active(_) => false,
        Ticket::Input(n) => *n == c,
        Ticket::AnySignal => false,
    }
}

fn is_open(waiting: &Waiting) -> bool
    ensures { result ≡ is_open waiting.now }
{
    match waiting {
        Waiting::Open(_) => true,
        _ => false,
    }
}

fn can_go(caller: &Process) -> bool
    ensures { result ≡ can_go caller.now }
{
    caller.live && !is_open(&caller.waiting)
}

fn waited_of(waiting: &Waiting) -> Waited
    ensures { result ≡ waited_of waiting.now }
{
    match waiting {
        Waiting::Nothing => Waited::None,
        Waiting::Open(_) => Waited::Still,
        Waiting::Done => Waited::Done,
        Waiting::Broken => Waited::Broken,
    }
}

fn waiting_after_report(waiting: &Waiting) -> Waiting
    ensures { result ≡ waiting_after_report waiting.now }
{
    if is_open(waiting) {
        *waiting
    } else {
        Waiting::Nothing
    }
}

fn after_signal(waiting: &Waiting) -> Waiting
    ensures { result ≡ after_signal waiting.now }
{
    if is_open(waiting) {
        Waiting::Broken
    } else {
        *waiting
    }
}
