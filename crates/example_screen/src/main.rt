//! An example of the library: the escape machine alone. The input is a text of any length; for each line of it,
//! the output has the side effects, and then the rows that it changed.
#![tactic(auto)]

mod drawing;
mod telling;

use drawing::drawn;
use std::io;
use std::io::{Read, Write};

fn main(rt: HostRuntime) -> io::Result<()> {
    let alloc = rt.alloc();
    let mut text = Vec::new(alloc);
    rt.reader().read_to_end(&mut text)?;
    let lines = drawn(alloc, text.as_slice())?;
    io::writer(&rt).write_all(lines.as_slice())
}
