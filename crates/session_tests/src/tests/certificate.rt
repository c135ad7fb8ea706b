//! Sessions that were raced: the journal is one of many, and still has a certificate.
use session_run::race_tables;
use session_text::{Session, read};
use std::alloc::Global;
use std::sync::Wait;
use std::sync::atomic::AtomicBool;
use std::sync::atomic::Ordering::SeqCst;
use std::test::Fail;
use std::thread;
use std::thread::Threads;
use test_sessions::{ABANDONED, HANDOVER, ORDINARY};
use vt_base::{Bytes, CallerNo, NoMemory, Signal};
use vt_events::{Entry, Event};
use vt_explain::{Explained, HopCause, HopWhy, Judged, accept, explain, print_cert, read_cert};
use vt_io::{Gate, OpenGate};
use vt_journal::{Journal, Tail, parse, print};

// How often a caller that is held looks again.
const TURNS: u32 = 1_000_000;

// Holds caller 2's call 2, which requests the display, until caller 1 handles its switches, by its call 2; and
// caller 1's call 4, by which it lets the display go at the earliest, or exits, until caller 2's call 2 is
// made.
#[derive(Drop)]
struct InOrder {
    is_set: AtomicBool,
    is_asked: AtomicBool,
}

impl InOrder {
    fn new() -> InOrder {
        InOrder {
            is_set: AtomicBool::new(false),
            is_asked: AtomicBool::new(false),
        }
    }
}

fn hold(came: &AtomicBool) {
    for _ in 0..TURNS {
        if came.load(SeqCst) {
            return;
        }
        thread::yield_now();
    }
}

impl Gate for InOrder {
    fn before<R: Wait>(&self, _rt: &R, caller: CallerNo, seq: u32) {
        match (caller.get(), seq) {
            (1, 3) => self.is_set.store(true, SeqCst),
            (2, 2) => hold(&self.is_set),
            (2, 3) => self.is_asked.store(true, SeqCst),
            (1, 4) => hold(&self.is_asked),
            _ => (),
        }
    }
}

fn raced<G: Gate + Sync, R: Threads + Wait + Sync>(
    rt: &R,
    alloc: Global,
    s: &Session,
    gate: &G,
) -> Result<Journal, Fail> {
    let run = race_tables(rt, alloc, s, gate)?;
    journal(alloc, run.log.entries(), &run.tail())
}

fn printed(alloc: Global, entries: &[Entry], end: &Tail) -> Result<Bytes, NoMemory> {
    let mut text = Bytes::new(alloc);
    print(alloc, entries, 2, end, &mut text)?;
    Ok(text)
}

fn parsed(alloc: Global, text: &[u8]) -> Result<Journal, Fail> {
    match parse(alloc, text) {
        Ok(journal) => Ok(journal),
        Err(_) => Err("no journal".into()),
    }
}

// The journal of these entries.
fn journal(alloc: Global, entries: &[Entry], end: &Tail) -> Result<Journal, Fail> {
    match printed(alloc, entries, end) {
        Ok(text) => parsed(alloc, text.as_slice()),
        Err(NoMemory) => Err("no memory".into()),
    }
}

// Whether the journal has a certificate, which is accepted when it is read again from its text.
fn has_certificate(alloc: Global, s: &Session, j: &Journal) -> Result<bool, Fail> {
    match explain(alloc, s, j)? {
        Explained::Cert(c) => is_accepted(alloc, s, j, &c),
        Explained::Illegal { .. } => Ok(false),
    }
}

fn is_accepted(alloc: Global, s: &Session, j: &Journal, c: &[HopWhy]) -> Result<bool, Fail> {
    let items = read_again(alloc, c)?;
    Ok(matches!(accept(alloc, s, j, &items)?, Judged::Yes))
}

fn read_again(alloc: Global, c: &[HopWhy]) -> Result<Vec<HopWhy>, Fail> {
    let text = print_cert(alloc, c)?;
    match read_cert(alloc, text.as_slice()) {
        Ok(items) => Ok(items),
        Err(_) => Err("no certificate".into()),
    }
}

#[test]
fn a_raced_journal_is_explained(rt: HostRuntime) -> Result<(), Fail> {
    let session = read(rt.alloc(), ORDINARY.as_bytes())?;
    let journal = raced(&rt, rt.alloc(), &session, &OpenGate)?;
    assert!(rt; has_certificate(rt.alloc(), &session, &journal)?);
    Ok(())
}

// Whether process 1 was asked, by signal 10, in an entry that activates a console.
fn was_asked(entries: &[Entry], owner: CallerNo, asked: u32, signal: Signal) -> bool {
    let is_activate = match entries.get(asked as usize) {
        Some(entry) => matches!(entry.event, Event::Activate(..)),
        None => false,
    };
    is_activate && owner.get() == 1 && signal.get() == 10
}

// Whether the one item is a release, or a death if it should be one.
fn has_cause(c: &[HopWhy], entries: &[Entry], is_death: bool) -> bool {
    let [why] = c else {
        return false;
    };
    match why.cause {
        HopCause::Free => false,
        HopCause::Released {
            owner,
            asked,
            signal,
        } => !is_death && was_asked(entries, owner, asked, signal),
        HopCause::Died {
            owner,
            asked,
            signal,
        } => is_death && was_asked(entries, owner, asked, signal),
    }
}

fn is_explained(alloc: Global, s: &Session, j: &Journal, is_death: bool) -> Result<bool, Fail> {
    match explain(alloc, s, j)? {
        Explained::Cert(c) => {
            Ok(has_cause(&c, j.entries.as_slice(), is_death) && is_accepted(alloc, s, j, &c)?)
        }
        Explained::Illegal { .. } => Ok(false),
    }
}

// Whether the display leaves console 1 so in a race of the session with the gate.
fn leaves<R: Threads + Wait + Sync>(
    rt: &R,
    alloc: Global,
    text: &str,
    is_death: bool,
) -> Result<bool, Fail> {
    let session = read(alloc, text.as_bytes())?;
    let gate = InOrder::new();
    let journal = raced(rt, alloc, &session, &gate)?;
    is_explained(alloc, &session, &journal, is_death)
}

#[test]
fn a_raced_release_and_a_raced_death_are_explained(rt: HostRuntime) -> Result<(), Fail> {
    let released = leaves(&rt, rt.alloc(), HANDOVER, false)?;
    assert!(rt; released, "a release");
    let died = leaves(&rt, rt.alloc(), ABANDONED, true)?;
    assert!(rt; died, "a death");
    Ok(())
}
