//! An example of the library: one machine for two processes, each in a thread of its own. Process 1 handles the
//! switches of console 1, and process 2 requests console 2 and writes the input there. The output has the calls
//! of each with their answers, the console that has the display at the end, and the screen of console 2. If the
//! journal has room for each call, the output is the same in whatever order the threads run.
#![tactic(auto)]

mod asker;
mod calling;
mod opening;
mod server;
mod sharing;
mod telling;

use opening::started;
use sharing::shared;
use std::alloc::Global;
use std::io;
use std::io::{Read, Write};
use std::sync::Wait;
use std::thread::Threads;
use telling::told;
use vt_base::{Bytes, NoMemory};

fn main(rt: HostRuntime) -> io::Result<()> {
    let alloc = rt.alloc();
    let mut text = Vec::new(alloc);
    rt.reader().read_to_end(&mut text)?;
    let lines = lines_of(&rt, alloc, text.as_slice())?;
    io::writer(&rt).write_all(lines.as_slice())
}

fn lines_of<R: Threads + Wait + Sync>(
    rt: &R,
    alloc: Global,
    text: &[u8],
) -> Result<Bytes, NoMemory> {
    let world = started(alloc)?;
    let run = shared(rt, alloc, world, text)?;
    told(alloc, &run)
}
