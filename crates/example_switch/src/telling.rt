//! The lines of the output: each call with its answer.
use std::alloc::Global;
use vt_base::{Bytes, ConsoleNo, NoMemory};
use vt_events::Reply;

/// Adds a line: the call in words, its answer, and the console that has the display after it.
pub(crate) fn add_line(
    alloc: Global,
    lines: &mut Bytes,
    words: &[u8],
    reply: &Reply,
    front: ConsoleNo,
) -> Result<(), NoMemory> {
    lines.add(alloc, words)?;
    add_answer(alloc, lines, reply)?;
    lines.add(alloc, b", display ")?;
    lines.add_decimal(alloc, u64::from(front.get()))?;
    lines.add(alloc, b"\n")
}

fn add_answer(alloc: Global, lines: &mut Bytes, reply: &Reply) -> Result<(), NoMemory> {
    match reply {
        Reply::Done => lines.add(alloc, b": ok"),
        Reply::Err(errno) => {
            lines.add(alloc, b": refused ")?;
            lines.add_decimal(alloc, u64::from(errno.number()))
        }
        _ => lines.add(alloc, b": something else"),
    }
}
