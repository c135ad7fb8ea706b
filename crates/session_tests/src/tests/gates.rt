//! A race asks its gate before each call on the hub: for each caller 0, 1, 2 and so on, each once, as many as
//! it makes.
use session_run::{Run, race_tables};
use session_text::{Session, read};
use std::alloc::Global;
use std::sync::Wait;
use std::sync::atomic::Ordering::SeqCst;
use std::sync::atomic::{AtomicBool, AtomicU32};
use std::test::Fail;
use std::thread::Threads;
use test_sessions::{HANDOVER, ORDINARY};
use vt_base::CallerNo;
use vt_events::{Entry, Event};
use vt_io::Gate;

// How often it was asked for the calls of the keyboard and of two processes, and whether a number was not the next.
#[derive(Drop)]
struct Notes {
    keyboard: AtomicU32,
    one: AtomicU32,
    two: AtomicU32,
    failed: AtomicBool,
}

impl Notes {
    fn new() -> Notes {
        Notes {
            keyboard: AtomicU32::new(0),
            one: AtomicU32::new(0),
            two: AtomicU32::new(0),
            failed: AtomicBool::new(false),
        }
    }

    fn note(&self, count: &AtomicU32, seq: u32) {
        if count.fetch_add(1, SeqCst) != seq {
            self.failed.store(true, SeqCst);
        }
    }

    // Whether it was asked for each call of these entries, and, if the journal was full, for one more of each
    // caller whose program isn't over.
    fn are_of(&self, entries: &[Entry], is_full: bool) -> bool {
        !self.failed.load(SeqCst)
            && self.keyboard.load(SeqCst) == asked_for(entries, 0, is_full)
            && self.one.load(SeqCst) == asked_for(entries, 1, is_full)
            && self.two.load(SeqCst) == asked_for(entries, 2, is_full)
    }
}

impl Gate for Notes {
    fn before<R: Wait>(&self, _rt: &R, caller: CallerNo, seq: u32) {
        match caller.get() {
            0 => self.note(&self.keyboard, seq),
            1 => self.note(&self.one, seq),
            2 => self.note(&self.two, seq),
            _ => self.failed.store(true, SeqCst),
        }
    }
}

// How often the gate has to be asked for the caller's calls: its entries, and one that found no room.
fn asked_for(entries: &[Entry], caller: u16, is_full: bool) -> u32 {
    let mut count = 0u32;
    let mut is_over = false;
    for entry in entries {
        if entry.caller.get() == caller {
            count = count.saturating_add(1);
            is_over = matches!(entry.event, Event::Exit);
        }
    }
    count.saturating_add(u32::from(is_full && !is_over))
}

fn raced<R: Threads + Wait + Sync>(
    rt: &R,
    alloc: Global,
    s: &Session,
    notes: &Notes,
) -> Result<Run, Fail> {
    Ok(race_tables(rt, alloc, s, notes)?)
}

// Whether a race of the session of this text asks the gate so, and whether it ends with a full journal.
fn asks<R: Threads + Wait + Sync>(
    rt: &R,
    alloc: Global,
    text: &str,
    is_full: bool,
) -> Result<bool, Fail> {
    let session = read(alloc, text.as_bytes())?;
    let notes = Notes::new();
    let run = raced(rt, alloc, &session, &notes)?;
    Ok(run.stop.is_some() == is_full && notes.are_of(run.log.entries(), is_full))
}

// The same for a session whose journal holds so many calls.
fn asks_full<R: Threads + Wait + Sync>(rt: &R, alloc: Global, count: u32) -> Result<bool, Fail> {
    let text = format!(in alloc; "events = {count}\n{HANDOVER}")?;
    asks(rt, alloc, text.as_str(), true)
}

#[test]
fn the_gate_is_asked_before_each_call(rt: HostRuntime) -> Result<(), Fail> {
    for text in [HANDOVER, ORDINARY] {
        let asked = asks(&rt, rt.alloc(), text, false)?;
        assert!(rt; asked, "{text}");
    }
    for count in 0..6u32 {
        let asked = asks_full(&rt, rt.alloc(), count)?;
        assert!(rt; asked, "{count} entries");
    }
    Ok(())
}
