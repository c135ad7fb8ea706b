//! Runs of the command.
use crate::case::Case;
use crate::spelling::{add_lines, put, put_number};
use crate::streams::{Streams, streams_of};
use std::alloc::Global;
use vt_base::NoMemory;
use vt_tool::vt_command;

/// Runs the case's command, once for each room of out, and adds the results.
pub(crate) fn add_runs(alloc: Global, case: &Case, text: &mut Vec<u8>) -> Result<(), NoMemory> {
    let (first, last) = case.rooms;
    for room in first..=last {
        if first != last {
            put(text, b"room ")?;
            put_number(text, room as u64)?;
            put(text, b"\n")?;
        }
        add_run(alloc, case, room, text)?;
    }
    Ok(())
}

fn add_run(alloc: Global, case: &Case, room: usize, text: &mut Vec<u8>) -> Result<(), NoMemory> {
    let mut streams = streams_of(alloc, case, room)?;
    let status = run(alloc, case.words.as_slice(), &mut streams);
    add_outcome(status, &streams, text)
}

// The one call of the command: it stands alone, since a body that holds it is dear to prove.
fn run(alloc: Global, words: &[String], streams: &mut Streams) -> u8 {
    let status = vt_command(
        alloc,
        words,
        &mut streams.src,
        &mut streams.out,
        &mut streams.err,
    );
    status.number()
}

fn add_outcome(status: u8, streams: &Streams, text: &mut Vec<u8>) -> Result<(), NoMemory> {
    put(text, b"status ")?;
    put_number(text, u64::from(status))?;
    put(text, b"\nout\n")?;
    add_lines(streams.out.held(), text)?;
    put(text, b"err\n")?;
    add_lines(streams.err.held(), text)?;
    Ok(())
}
