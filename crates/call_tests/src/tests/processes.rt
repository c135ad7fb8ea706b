//! Callers through opens, signals, waits and deaths. Expected answers were computed by hand from the rules of
//! signals and waits.
use super::checks::check;
use Waited::{Broken, Done, Still};
use vt_base::{CallerNo, ConsoleNo, Fd, Signal};
use vt_procs::{ProcStart, Procs, Ticket, Waited};

fn two_processes() -> Procs {
    let start = ProcStart {
        home: 2,
        privileged: false,
    };
    Procs::start(&[start, ProcStart::default()], 1)
}

fn has_home(procs: &Procs, p: CallerNo) -> bool {
    procs.home(p) == 2 && !procs.privileged(p)
}

// Whether this open has this number.
fn adds(procs: &mut Procs, p: CallerNo, c: ConsoleNo, number: u16) -> bool {
    match procs.add_open(p, c) {
        Some(fd) => fd.get() == number,
        None => false,
    }
}

fn shuts_first(procs: &mut Procs, p: CallerNo) -> bool {
    if procs.console_of(p, 0).is_none() {
        return false;
    }
    procs.shut(p, Fd::numbered(0));
    true
}

// Opens the console with each number that is left.
fn fills(procs: &mut Procs, p: CallerNo, c: ConsoleNo) -> bool {
    for number in 2..16 {
        if !adds(procs, p, c, number) {
            return false;
        }
    }
    procs.add_open(p, c).is_none()
}

// Process 1 opens consoles 2 and 5, and shuts the first.
fn opens_and_shuts(procs: &mut Procs) -> bool {
    let p = CallerNo::numbered(1);
    let c = ConsoleNo::numbered(2);
    let other = ConsoleNo::numbered(5);
    has_home(procs, p)
        && adds(procs, p, c, 0)
        && adds(procs, p, other, 1)
        && shuts_first(procs, p)
        && !procs.opened(c)
        && procs.opened(other)
        && adds(procs, p, c, 0)
        && fills(procs, p, c)
        && procs.console_of(p, 1) == Some(other)
        && procs.console_of(p, 16).is_none()
}

#[test]
fn opens_are_the_lowest_free(rt: HostRuntime) {
    check(&rt, opens_and_shuts(&mut two_processes()), "opens");
}

fn begin(procs: &mut Procs, p: CallerNo, ticket: Ticket) {
    if procs.live(p) && procs.ticket(p) == Waited::None {
        procs.wait(p, ticket);
    }
}

fn raise(procs: &mut Procs, p: CallerNo, n: u16) {
    if let Some(s) = Signal::new(n) {
        if procs.live(p) && s.get() != 9 {
            procs.raise(p, s);
        }
    }
}

fn end_caller(procs: &mut Procs, n: u16) {
    if let Some(p) = CallerNo::new(n) {
        if procs.live(p) {
            procs.end(p);
        }
    }
}

// An event while a process waits: 0, the console gets the display; 1, bytes come; 2, a signal comes; 3, the
// others die.
fn happen(procs: &mut Procs, p: CallerNo, c: ConsoleNo, what: u16) {
    match what {
        0 => procs.shown(c),
        1 => procs.filled(c),
        2 => raise(procs, p, 10),
        _ => {
            end_caller(procs, 0);
            end_caller(procs, 2);
            procs.settle();
        }
    }
}

fn ticket_of(word: u16, c: ConsoleNo) -> Ticket {
    match word {
        0 => Ticket::Active(c),
        1 => Ticket::Input(c),
        _ => Ticket::AnySignal,
    }
}

// Process 1 waits by this ticket for console 3: whether its wait ends so after this event.
fn is_told(word: u16, what: u16, told: Waited) -> bool {
    let p = CallerNo::numbered(1);
    let c = ConsoleNo::numbered(3);
    let mut procs = two_processes();
    let none = procs.ticket(p) == Waited::None;
    begin(&mut procs, p, ticket_of(word, c));
    procs.settle();
    let open = procs.ticket(p) == Still;
    happen(&mut procs, p, c, what);
    none && open && procs.ticket(p) == told && procs.signalled(p) == (what == 2)
}

// The answer that the process gets then: a row for each ticket, and in it the answer after each of the four
// events.
const WAITS: [[Waited; 4]; 3] = [
    [Done, Still, Broken, Broken],
    [Still, Done, Broken, Broken],
    [Still, Still, Broken, Broken],
];

#[test]
fn waits_end_by_what_they_wait_for(rt: HostRuntime) {
    for word in 0..3 {
        for what in 0..4 {
            let told = WAITS[usize::from(word)][usize::from(what)];
            check(&rt, is_told(word, what, told), u32::from(10 * word + what));
        }
    }
}

fn is_live(procs: &Procs, n: u16) -> bool {
    match CallerNo::new(n) {
        Some(p) => procs.live(p),
        None => false,
    }
}

// Keyboards, and the answer that the process gets after each has exited too.
const KEYBOARDS: &[(u16, Waited)] = &[(0, Still), (65, Still), (66, Still), (67, Broken)];

fn goes(procs: &mut Procs, p: CallerNo, keyboard: u16, told: Waited) -> bool {
    let was_live = is_live(procs, keyboard);
    end_caller(procs, keyboard);
    procs.settle();
    was_live && procs.ticket(p) == told
}

fn all_go(procs: &mut Procs, p: CallerNo) -> bool {
    begin(procs, p, Ticket::AnySignal);
    for &(keyboard, told) in KEYBOARDS {
        if !goes(procs, p, keyboard, told) {
            return false;
        }
    }
    true
}

fn four_go() -> bool {
    let mut procs = Procs::start(&[ProcStart::default()], 4);
    !is_live(&procs, 2) && all_go(&mut procs, CallerNo::numbered(1))
}

fn two_live() -> bool {
    let two = Procs::start(&[], 2);
    is_live(&two, 65) && !is_live(&two, 66)
}

// Of four keyboards and a process that waits, the fourth keyboard is the last that can go on.
#[test]
fn every_keyboard_keeps_the_others_waiting(rt: HostRuntime) {
    check(&rt, four_go(), "four keyboards");
    check(&rt, two_live(), "two keyboards");
}

// The signals that the process takes, as a set; 0 if it is dead.
fn taken(procs: &mut Procs, p: CallerNo) -> u64 {
    if procs.live(p) {
        procs.take_signals(p).bits()
    } else {
        0
    }
}

fn collects_nothing(procs: &mut Procs, p: CallerNo) -> bool {
    procs.live(p) && procs.collect(p) == Waited::None
}

fn accepts(procs: &mut Procs, p: CallerNo) -> bool {
    if procs.live(p) {
        procs.accept(p, Signal::numbered(2));
    }
    procs.accepter().is_some()
}

fn dies(procs: &mut Procs, p: CallerNo) -> bool {
    end_caller(procs, p.get());
    procs.accepter().is_none() && !procs.live(p)
}

fn takes_once(procs: &mut Procs) -> bool {
    let p = CallerNo::numbered(1);
    for n in [10, 1, 64, 10] {
        raise(procs, p, n);
    }
    taken(procs, p) == 0x8000_0000_0000_0201
        && taken(procs, p) == 0
        && collects_nothing(procs, p)
        && accepts(procs, p)
        && dies(procs, p)
}

#[test]
fn signals_are_taken_once(rt: HostRuntime) {
    check(&rt, takes_once(&mut two_processes()), "signals");
}
