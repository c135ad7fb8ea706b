//! The lines of the output: each process's calls, the display, and the rows of console 2.
use std::alloc::Global;
use vt_base::{Bytes, CallerNo, ConsoleNo, NoMemory};
use vt_dump::add_rows;
use vt_events::{Entry, Event, Reply};
use vt_hub::Run;
use vt_world::World;

/// The calls of each process in its own order, the display, and the rows of console 2.
pub(crate) fn told(alloc: Global, run: &Run) -> Result<Bytes, NoMemory> {
    let mut lines = Bytes::new(alloc);
    add_calls(alloc, &mut lines, run.log.entries(), 1)?;
    add_calls(alloc, &mut lines, run.log.entries(), 2)?;
    add_stop(alloc, &mut lines, run)?;
    add_display(alloc, &mut lines, &run.world)?;
    add_screen(alloc, &mut lines, &run.world)?;
    Ok(lines)
}

fn add_calls(
    alloc: Global,
    lines: &mut Bytes,
    entries: &[Entry],
    number: u16,
) -> Result<(), NoMemory> {
    for entry in entries {
        if entry.caller.get() == number {
            add_call(alloc, lines, entry)?;
        }
    }
    Ok(())
}

// Whether a call has to wait depends on the turns that the threads take. So a wait is one line, with how it ended.
fn add_call(alloc: Global, lines: &mut Bytes, entry: &Entry) -> Result<(), NoMemory> {
    if !matches!(entry.event, Event::WaitEnd) {
        add_words(alloc, lines, entry)?;
    }
    if !matches!(entry.reply, Reply::Wait) {
        add_answer(alloc, lines, &entry.reply)?;
    }
    Ok(())
}

fn add_words(alloc: Global, lines: &mut Bytes, entry: &Entry) -> Result<(), NoMemory> {
    lines.add(alloc, b"process ")?;
    lines.add_decimal(alloc, u64::from(entry.caller.get()))?;
    lines.add(alloc, words_of(&entry.event))
}

fn words_of(event: &Event) -> &[u8] {
    match event {
        Event::OpenCon(_) => b" opens its console: ",
        Event::SetMode(..) => b" handles its switches: ",
        Event::WaitSignal => b" waits for a signal: ",
        Event::TakeSignals => b" takes its signals: ",
        Event::RelDisp(..) => b" lets the display go: ",
        Event::Activate(..) => b" asks for the display: ",
        Event::WaitActive(..) => b" waits for the display: ",
        Event::Write(..) => b" writes: ",
        Event::Exit => b" exits: ",
        _ => b" calls: ",
    }
}

fn add_answer(alloc: Global, lines: &mut Bytes, reply: &Reply) -> Result<(), NoMemory> {
    match reply {
        Reply::Done => lines.add(alloc, b"ok\n"),
        Reply::Num(n) => add_line(alloc, lines, b"number ", u64::from(*n)),
        Reply::Sigs(signals) => add_line(alloc, lines, b"signals ", signals.bits()),
        Reply::Err(errno) => add_line(alloc, lines, b"error ", u64::from(errno.number())),
        _ => lines.add(alloc, b"something else\n"),
    }
}

// If a call found no room, it and all later ones are missing.
fn add_stop(alloc: Global, lines: &mut Bytes, run: &Run) -> Result<(), NoMemory> {
    match run.stop {
        Some(_) => lines.add(alloc, b"the journal is full\n"),
        None => Ok(()),
    }
}

fn add_display(alloc: Global, lines: &mut Bytes, world: &World) -> Result<(), NoMemory> {
    add_line(alloc, lines, b"display ", u64::from(world.display().get()))
}

fn add_screen(alloc: Global, lines: &mut Bytes, world: &World) -> Result<(), NoMemory> {
    match world.screen(ConsoleNo::numbered(2)) {
        Some(screen) => add_rows(alloc, lines, screen.grid()),
        None => lines.add(alloc, b"no console 2\n"),
    }
}

fn add_line(alloc: Global, lines: &mut Bytes, words: &[u8], n: u64) -> Result<(), NoMemory> {
    lines.add(alloc, words)?;
    lines.add_decimal(alloc, n)?;
    lines.add(alloc, b"\n")
}
