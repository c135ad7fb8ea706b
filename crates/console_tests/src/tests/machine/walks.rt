//! Walks through programs. Expected values come from docs/reference/sessions.md, and from the worked run of an ordinary
//! session.
ghost use Rattle.session_text.specs.Walks.{HasActs};

use super::journal;
use session_text::{Program, Walk, read};
use sig_hooks::{Handler, Hook, HookTable};
use std::alloc::Global;
use std::cell::Cell;
use std::process::Abort;
use std::test::Fail;
use test_sessions::ORDINARY;
use vt_base::{Bytes, CallerNo, Errno, NoMemory, SigSet, Signal};
use vt_events::{Event, Reply};

// The calls of a display server, each with its answer.
const SERVER: &[(&str, &str)] = &[
    ("open 7", "0"),
    ("signals", "none"),
    ("setmode 0 1 0 10 12 0", "ok"),
    ("signals", "12"),
    ("reldisp 0 2", "ok"),
    ("setkd 0 1", "ok"),
    ("signals", "none"),
    ("waitsignal", "wait"),
    ("waitend", "interrupted"),
    ("signals", "none"),
    ("exit", "ok"),
    ("", "ok"),
];

// A process that sends another one a signal.
const KILLER: &str = "process = [{script = ['kill 2 10']}, {}]\n";

// The calls of a process that is ended by its first one.
const ENDED: &[(&str, &str)] = &[("kill 2 10", "gone"), ("signals", "gone"), ("", "ok")];

fn reply_of(word: &str) -> Reply {
    match word {
        "0" => Reply::Num(0),
        "none" => Reply::Sigs(SigSet::empty()),
        "12" => Reply::Sigs(twelve()),
        "wait" => Reply::Wait,
        "interrupted" => Reply::Err(Errno::Intr),
        "gone" => Reply::Err(Errno::Srch),
        _ => Reply::Done,
    }
}

fn twelve() -> SigSet {
    match Signal::new(12) {
        Some(s) => SigSet::empty().with(s),
        None => SigSet::empty(),
    }
}

// The journal of the call with its answer; empty if there is no call.
fn spelled(alloc: Global, next: Option<Event>) -> Result<Bytes, NoMemory> {
    match next {
        Some(event) => spelled_call(alloc, event),
        None => Ok(Bytes::new(alloc)),
    }
}

fn spelled_call(alloc: Global, event: Event) -> Result<Bytes, NoMemory> {
    match CallerNo::new(2) {
        Some(caller) => journal(alloc, caller, event, Reply::Done),
        None => Ok(Bytes::new(alloc)),
    }
}

fn next_of(alloc: Global, walk: &Walk, program: &Program) -> Result<Bytes, NoMemory> {
    spelled(alloc, walk.next(alloc, program)?)
}

// The next call, by asking a hook with this handler.
fn next_by<H: Handler>(
    alloc: Global,
    walk: &Walk,
    program: &Program,
    handler: H,
    table: HookTable,
) -> Result<Bytes, NoMemory>
    requires handler { H.answers handler table }
    requires acts { HasActs program.now table }
{
    let hook = Hook::new(handler, table);
    spelled(alloc, walk.next_by(alloc, program, &hook)?)
}

// The next call, by a handler that counts how often it is asked.
fn next_by_hook(
    alloc: Global,
    walk: &Walk,
    program: &Program,
    asked: &Cell<u32>,
) -> Result<Bytes, NoMemory> {
    let Program::Script { hooks, .. } = program else {
        return Ok(Bytes::new(alloc));
    };
    let table = *hooks;
    next_by(
        alloc,
        walk,
        program,
        |s: Signal| {
            asked.set(asked.get().saturating_add(1));
            table.act(s)
        },
        table,
    )
}

// Whether the journal is that of this call, or empty if there is none.
fn is_call(journal: &[u8], words: &str) -> bool {
    match journal.strip_prefix(b"%journal 2\np2 0 ") {
        Some(entry) => match entry.strip_suffix(b" = ok\n%end 0 0\n") {
            Some(call) => call == words.as_bytes(),
            None => false,
        },
        None => journal.is_empty() && words.is_empty(),
    }
}

fn check_next(
    by: &impl Abort,
    alloc: Global,
    walk: &Walk,
    program: &Program,
    words: &str,
) -> Result<(), NoMemory> {
    let next = next_of(alloc, walk, program)?;
    assert!(by; is_call(next.as_slice(), words), "{words}");
    Ok(())
}

fn check_by_hook(
    by: &impl Abort,
    alloc: Global,
    walk: &Walk,
    program: &Program,
    words: &str,
    asked: &Cell<u32>,
) -> Result<(), NoMemory> {
    let next = next_by_hook(alloc, walk, program, asked)?;
    assert!(by; is_call(next.as_slice(), words), "{words}, by the hook");
    Ok(())
}

// Walks through the program by these answers, and gives how often its hook was asked.
fn check_walk(
    by: &impl Abort,
    alloc: Global,
    program: &Program,
    calls: &[(&str, &str)],
) -> Result<u32, NoMemory> {
    let asked = Cell::new(0);
    let mut walk = Walk::start();
    for &(words, reply) in calls {
        check_next(by, alloc, &walk, program, words)?;
        check_by_hook(by, alloc, &walk, program, words, &asked)?;
        walk.took(program, &reply_of(reply));
    }
    Ok(asked.get())
}

// Walks through one of these programs.
fn check_nth(
    by: &impl Abort,
    alloc: Global,
    programs: &[Program],
    p: usize,
    calls: &[(&str, &str)],
) -> Result<u32, Fail> {
    match programs.get(p) {
        Some(program) => Ok(check_walk(by, alloc, program, calls)?),
        None => Err("no such process".into()),
    }
}

fn check_program(
    by: &impl Abort,
    alloc: Global,
    session: &str,
    p: usize,
    calls: &[(&str, &str)],
) -> Result<u32, Fail> {
    let session = read(alloc, session.as_bytes())?;
    check_nth(by, alloc, session.programs(), p, calls)
}

#[test]
fn walks_an_ordinary_process(rt: HostRuntime) -> Result<(), Fail> {
    let asked = check_program(&rt, rt.alloc(), ORDINARY, 2, SERVER)?;
    assert!(rt; asked == 1, "signal 12 was asked for once");
    Ok(())
}

#[test]
fn a_kill_without_target_ends_no_program(rt: HostRuntime) -> Result<(), Fail> {
    let asked = check_program(&rt, rt.alloc(), KILLER, 1, ENDED)?;
    assert!(rt; asked == 0, "no signal came");
    Ok(())
}
