//! An example of the library: a keymap compiled and typed on. The input is a keymap text; the output has, for
//! some keys, the bytes for the console's input and the requests.
#![tactic(auto)]

mod keymap;
mod telling;
mod typing;

use keymap::{Keymap, compiled};
use std::alloc::Global;
use std::io;
use std::io::{Read, Write};
use telling::add_refusal;
use typing::add_typed;
use vt_base::{Bytes, NoMemory};

fn main(rt: HostRuntime) -> io::Result<()> {
    let alloc = rt.alloc();
    let mut text = Vec::new(alloc);
    rt.reader().read_to_end(&mut text)?;
    let lines = typed(alloc, text.as_slice())?;
    io::writer(&rt).write_all(lines.as_slice())
}

// A line for each scan byte, or the fault of the keymap.
fn typed(alloc: Global, text: &[u8]) -> Result<Bytes, NoMemory> {
    let mut lines = Bytes::new(alloc);
    match compiled(alloc, text)? {
        Keymap::Tables(tables) => add_typed(alloc, &mut lines, &tables)?,
        Keymap::Refused(fault) => add_refusal(alloc, &mut lines, &fault)?,
    }
    Ok(lines)
}
