//! An example of the library: a machine with two processes, of which one handles the switches of its own
//! console. Each digit of the input is a console that the other one requests; the output has their calls, the
//! answers, and the console that has the display.
#![tactic(auto)]

mod asking;
mod calling;
mod opening;
mod telling;

use asking::ask_for_each;
use std::io;
use std::io::{Read, Write};

fn main(rt: HostRuntime) -> io::Result<()> {
    let alloc = rt.alloc();
    let mut text = Vec::new(alloc);
    rt.reader().read_to_end(&mut text)?;
    let lines = ask_for_each(alloc, text.as_slice())?;
    io::writer(&rt).write_all(lines.as_slice())
}
