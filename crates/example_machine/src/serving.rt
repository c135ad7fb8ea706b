//! `serve_each`: the call of each line of the input, on one machine, and its journal.
use crate::opening::opened;
use crate::writing::Written;
use machine::{CallError, Machine};
use std::alloc::Global;
use vt_base::{Bytes, CallerNo, NoMemory};
use vt_events::Event;
use vt_journal::{cut_line, read_event};
use vt_procs::ProcStart;

/// Makes the call of each line, and returns the journal. Lines that are no call are left out.
pub(crate) fn serve_each(alloc: Global, text: &[u8]) -> Result<Bytes, NoMemory> {
    let mut machine = opened(alloc)?;
    let mut written = Written::new(alloc)?;
    let mut rest = text;
    for _ in 0..text.len() {
        let Some(cut) = cut_line(rest) else {
            break;
        };
        serve(alloc, &mut machine, cut.line, &mut written)?;
        rest = cut.behind;
    }
    written.write(alloc, &mut machine)?;
    written.end(alloc)
}

// Makes the call of a line: a digit, a blank, and the words of a call.
fn serve(
    alloc: Global,
    machine: &mut Machine,
    line: &[u8],
    written: &mut Written,
) -> Result<(), NoMemory> {
    let [digit, b' ', words @ ..] = line else {
        return Ok(());
    };
    let Some(p) = CallerNo::new(u16::from(digit.saturating_sub(b'0'))) else {
        return Ok(());
    };
    match read_event(alloc, words)? {
        Some(event) => admit_and_call(alloc, machine, p, event, written),
        None => Ok(()),
    }
}

// Gives the process to a program that is at home on the console of its number, unless it has one, and makes its
// call.
fn admit_and_call(
    alloc: Global,
    machine: &mut Machine,
    p: CallerNo,
    event: Event,
    written: &mut Written,
) -> Result<(), NoMemory> {
    let _ = machine.admit(
        p,
        ProcStart {
            home: p.get() as u8,
            privileged: false,
        },
    );
    let again = event.copy(alloc)?;
    match machine.call(alloc, p, event) {
        Ok(()) => Ok(()),
        Err(CallError::Full) => {
            written.write(alloc, machine)?;
            made(machine.call(alloc, p, again))
        }
        failed => made(failed),
    }
}

// A call that the emptied journal has no room for is left out.
fn made(call: Result<(), CallError>) -> Result<(), NoMemory> {
    match call {
        Err(CallError::NoMemory) => Err(NoMemory),
        _ => Ok(()),
    }
}
