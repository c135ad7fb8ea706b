use crate::calls::add_reply;
use crate::case::Case;
use crate::line::Line;
use crate::runs::add_runs;
use crate::spelling::put;
use std::alloc::Global;
use vt_base::NoMemory;

/// Adds the line unchanged, and its result if it has one.
pub(crate) fn add_answer(
    alloc: Global,
    case: &mut Case,
    line: &str,
    text: &mut Vec<u8>,
) -> Result<(), NoMemory> {
    put(text, line.as_bytes())?;
    match Line::of(line) {
        Line::Run => {
            put(text, b"\n")?;
            add_runs(alloc, case, text)
        }
        Line::Call(p, words) => add_call(alloc, case, p, words, text),
        Line::Unknown => {
            put(text, b"\nNo case has such a line.\n")?;
            Ok(())
        }
        said => {
            put(text, b"\n")?;
            case.take(alloc, said)
        }
    }
}

fn add_call(
    alloc: Global,
    case: &mut Case,
    p: u16,
    words: &str,
    text: &mut Vec<u8>,
) -> Result<(), NoMemory> {
    match &mut case.world {
        Some(world) => add_reply(alloc, world, p, words, text)?,
        None => put(text, b" finds no console")?,
    }
    put(text, b"\n")?;
    Ok(())
}
