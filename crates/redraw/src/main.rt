//! Prints the text that draws a screen again, in any terminal of its size. The screen is the one that the input makes;
//! the arguments are its rows and columns, from 1 to 255 each.
#![tactic(auto)]

mod drawing;
mod size;

use drawing::{Drawing, drawn};
use size::size_of;
use std::io;
use std::io::{Read, Write};
use std::process::ExitCode;
use vt_base::NoMemory;

/// The text was written whole.
const FINE: u8 = 0;

/// The arguments aren't two numbers from 1 to 255.
const USAGE: u8 = 1;

/// The input couldn't be read.
const READ_FAULT: u8 = 2;

/// The text couldn't be written.
const WRITE_FAULT: u8 = 3;

/// Memory ran out.
const NO_MEMORY: u8 = 4;

/// No text draws the screen.
const REFUSED: u8 = 5;

fn main(rt: HostRuntime) -> ExitCode {
    ExitCode::from(run(&rt))
}

// Reads, draws and writes, and returns the exit status.
fn run(rt: &HostRuntime) -> u8 {
    let Some(size) = size_of(rt) else {
        let _ = rt.eprintln("redraw: usage: redraw R C");
        return USAGE;
    };
    let mut input = Vec::new(rt.alloc());
    if rt.reader().read_to_end(&mut input).is_err() {
        let _ = rt.eprintln("redraw: read failed");
        return READ_FAULT;
    }
    match drawn(rt.alloc(), size, input.as_slice()) {
        Ok(Drawing::Text(text)) => write(rt, text.as_slice()),
        Ok(Drawing::Refused) => {
            let _ = rt.eprintln("redraw: a cell that no text draws");
            REFUSED
        }
        Err(NoMemory) => {
            let _ = rt.eprintln("redraw: no memory");
            NO_MEMORY
        }
    }
}

fn write(rt: &HostRuntime, text: &[u8]) -> u8 {
    if io::writer(rt).write_all(text).is_ok() {
        return FINE;
    }
    let _ = rt.eprintln("redraw: write failed");
    WRITE_FAULT
}
