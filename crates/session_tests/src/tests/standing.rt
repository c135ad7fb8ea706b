//! The progress of callers after the answers to their calls, by hand from docs/reference/sessions.md.
use session_order::SessionProgress;
use session_text::{Program, Session, program_of, read};
use std::alloc::Global;
use std::process::Abort;
use std::test::Fail;
use vt_base::{CallerNo, NoMemory, SigSet};
use vt_events::Reply;

// A process opens console 1, takes its signals, writes, takes its signals, and exits: five calls.
const SESSION: &str = "rows = 1\ncols = 4\nconsoles = [1]\n[[process]]\nhome = 1\n\
    script = [\"open 1\", \"say 0 hi\"]\n";

const CALLS: u32 = 5;

// The answer to its call `n`.
fn answer(n: u32) -> Reply {
    match n {
        0 => Reply::Num(0),
        2 => Reply::Num(2),
        4 => Reply::Done,
        _ => Reply::Sigs(SigSet::empty()),
    }
}

// Whether these calls were counted of the process alone, and its program is over after the last one.
fn is_so(
    alloc: Global,
    standing: &SessionProgress,
    program: &Program,
    calls: u32,
) -> Result<bool, NoMemory> {
    let p = CallerNo::numbered(1);
    let is_over = standing.walk(p).next(alloc, program)?.is_none();
    let is_counted = standing.count(p) == calls && standing.count(CallerNo::KEYBOARD) == 0;
    Ok(is_counted && is_over == (calls == CALLS))
}

fn is_right(alloc: Global, program: &Program, calls: u32) -> Result<bool, NoMemory> {
    let mut standing = SessionProgress::start(alloc)?;
    for n in 0..calls {
        standing.took(CallerNo::numbered(1), program, &answer(n));
    }
    is_so(alloc, &standing, program, calls)
}

fn is_right_of(alloc: Global, session: &Session, calls: u32) -> Result<bool, NoMemory> {
    match program_of(session.programs(), CallerNo::numbered(1)) {
        Some(program) => is_right(alloc, program, calls),
        None => Ok(false),
    }
}

fn check(by: &impl Abort, alloc: Global, session: &Session) -> Result<(), Fail> {
    for calls in 0..CALLS + 1 {
        let right = is_right_of(alloc, session, calls)?;
        assert!(by; right, "after {calls} calls");
    }
    Ok(())
}

#[test]
fn each_answered_call_is_counted(rt: HostRuntime) -> Result<(), Fail> {
    let session = read(rt.alloc(), SESSION.as_bytes())?;
    check(&rt, rt.alloc(), &session)
}
