//! The output of a command.
use std::alloc::Global;
use std::sync::Wait;
use std::thread::Threads;
use vt_base::{Bytes, NoMemory};
use vt_io::{Gate, MemSink, MemSource};
use vt_tool::vt_run;

const ROOM: usize = 100_000;

/// The output of a command, and its status.
#[derive(Drop)]
pub(crate) struct Printed {
    pub status: u8,
    pub out: MemSink,
    pub err: MemSink,
}

/// The words of a command.
pub(crate) fn words_of(alloc: Global, words: &[&str]) -> Result<Vec<String>, NoMemory> {
    let mut list = Vec::new(alloc);
    for word in words {
        list.push(String::from_str(alloc, word)?)?;
    }
    Ok(list)
}

fn sink(alloc: Global) -> Result<MemSink, NoMemory> {
    let room = Bytes::with_room(alloc, ROOM)?;
    Ok(MemSink::new(room, Bytes::new(alloc)))
}

/// Nothing is printed yet, and there is room for the output.
pub(crate) fn blank(alloc: Global) -> Result<Printed, NoMemory> {
    let out = sink(alloc)?;
    with_out(alloc, out)
}

fn with_out(alloc: Global, out: MemSink) -> Result<Printed, NoMemory> {
    match sink(alloc) {
        Ok(err) => Ok(Printed {
            status: 0,
            out,
            err,
        }),
        Err(NoMemory) => Err(NoMemory),
    }
}

/// Races the session of this text by the command.
pub(crate) fn race_text<G: Gate + Sync, R: Threads + Wait + Sync>(
    rt: &R,
    alloc: Global,
    text: &[u8],
    gate: &G,
) -> Result<Printed, NoMemory> {
    run_text(rt, alloc, "race", text, gate)
}

/// Runs the command of this one word on the text.
pub(crate) fn run_text<G: Gate + Sync, R: Threads + Wait + Sync>(
    rt: &R,
    alloc: Global,
    word: &str,
    text: &[u8],
    gate: &G,
) -> Result<Printed, NoMemory> {
    let words = words_of(alloc, &[word])?;
    run_words(rt, alloc, words.as_slice(), text, gate)
}

fn run_words<G: Gate + Sync, R: Threads + Wait + Sync>(
    rt: &R,
    alloc: Global,
    words: &[String],
    text: &[u8],
    gate: &G,
) -> Result<Printed, NoMemory> {
    let text = Bytes::from_slice(alloc, text)?;
    let mut src = MemSource::new(text, Bytes::new(alloc));
    run_from(rt, alloc, words, &mut src, gate)
}

/// Runs the command of these words on the bytes that the source gives.
pub(crate) fn run_from<G: Gate + Sync, R: Threads + Wait + Sync>(
    rt: &R,
    alloc: Global,
    words: &[String],
    src: &mut MemSource,
    gate: &G,
) -> Result<Printed, NoMemory> {
    let mut printed = blank(alloc)?;
    run(rt, alloc, words, src, &mut printed, gate);
    Ok(printed)
}

// The one call of the command, in a body that makes no value that has to be dropped.
fn run<G: Gate + Sync, R: Threads + Wait + Sync>(
    rt: &R,
    alloc: Global,
    words: &[String],
    src: &mut MemSource,
    printed: &mut Printed,
    gate: &G,
) {
    let Printed { status, out, err } = printed;
    let ended = vt_run(rt, alloc, words, src, out, err, gate);
    *status = ended.number();
}

/// Whether the text has these words one after another.
pub(crate) fn in_order(text: &[u8], words: &[&str]) -> bool {
    let Ok(mut rest) = str::from_utf8(text) else {
        return false;
    };
    for word in words {
        let Some((_, after)) = rest.split_once(*word) else {
            return false;
        };
        rest = after;
    }
    true
}
