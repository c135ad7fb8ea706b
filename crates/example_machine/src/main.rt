//! An example of the library: a machine whose calls come from outside. Each line of the input has the number of a
//! process and the words of its call. The output is the journal, of which at most four entries are kept.
#![tactic(auto)]

mod opening;
mod serving;
mod writing;

use serving::serve_each;
use std::io;
use std::io::{Read, Write};

fn main(rt: HostRuntime) -> io::Result<()> {
    let alloc = rt.alloc();
    let mut text = Vec::new(alloc);
    rt.reader().read_to_end(&mut text)?;
    let journal = serve_each(alloc, text.as_slice())?;
    io::writer(&rt).write_all(journal.as_slice())
}
