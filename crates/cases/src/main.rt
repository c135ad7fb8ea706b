//! Runs worked cases: prints each line of its input with its result. The head of the file `stdin` next to
//! `src/` describes the lines.
#![tactic(auto)]

mod answers;
mod calls;
mod case;
mod line;
mod runs;
mod spelling;
mod streams;

use answers::add_answer;
use case::Case;
use std::io;
use std::io::{BufRead, BufReader, Write};

fn main(rt: HostRuntime) -> io::Result<()> {
    let alloc = rt.alloc();
    let mut case = Case::new(alloc);
    let mut text = Vec::new(alloc);
    for line in BufReader::new(alloc, rt.reader())?.lines(alloc) {
        text.clear();
        add_answer(alloc, &mut case, line?.as_str(), &mut text)?;
        io::writer(&rt).write_all(text.as_slice())?;
    }
    Ok(())
}
