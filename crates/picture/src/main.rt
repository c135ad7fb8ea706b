//! Draws a stream on a screen, and prints the screen as a picture in SVG.
//!
//!     picture R C < STREAM > PICTURE.svg
//!
//! R and C are the rows and columns, from 1 to 255 each. It ends with status 0, or with a line on standard error and
//! status 1 for other words, 2 if a read fails, 3 if a write fails, and 4 if memory runs out.
#![tactic(auto)]

mod drawing;
mod ending;
mod words;

use drawing::drawn;
use ending::Ending;
use std::io;
use std::io::Write;
use std::process::ExitCode;
use vt_io::StdSource;
use words::size_of_words;

fn main(rt: HostRuntime) -> ExitCode {
    let ending = match size_of_words(&rt) {
        Some(size) => {
            let mut source = StdSource::new(rt.stdin());
            match drawn(rt.alloc(), &mut source, size) {
                Ok(text) => match io::writer(&rt).write_all(text.as_slice()) {
                    Ok(()) => Ending::Fine,
                    Err(_) => Ending::WriteFault,
                },
                Err(ending) => ending,
            }
        }
        None => Ending::Usage,
    };
    // (if standard error takes no line, the status is all that there is)
    let _ = rt.stderr().write_all(ending.line());
    ExitCode::from(ending.number())
}
