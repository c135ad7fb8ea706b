//! Prints what each call of a session did (docs/reference/watch.md).
//!
//!     watch [json] < FILE
//!     watch free [json] < FILE
//!
//! FILE is a session, or a session and a journal after it. Without a journal the program plays the session. With `free`
//! there has to be a journal, and its calls may be those of any programs. It ends with the statuses of `vt check`.
#![tactic(auto)]

mod adding;
mod ending;
mod entries;
mod facts;
mod following;
mod form;
mod free;
mod input;
mod piece;
mod states;
mod task;
mod watched;
mod watcher;
mod words;

use ending::Failure;
use input::text_for;
use std::alloc::Global;
use std::io;
use std::io::{Read, Write};
use std::process::ExitCode;
use task::Task;
use vt_base::Bytes;
use words::task_of_words;

/// The most bytes of input that are read.
const INPUT_LIMIT: usize = 16_777_216;

fn main(rt: HostRuntime) -> ExitCode {
    match watch(&rt) {
        Ok(()) => ExitCode::from(0),
        Err(failure) => {
            if let Ok(line) = failure.line(rt.alloc()) {
                // (if standard error takes no line, the status is all that there is)
                let _ = rt.stderr().write_all(line.as_slice());
            }
            ExitCode::from(failure.status())
        }
    }
}

fn watch(rt: &HostRuntime) -> Result<(), Failure> {
    let Some(task) = task_of_words(rt) else {
        return Err(Failure::Usage);
    };
    let text = output(rt, rt.alloc(), task)?;
    match io::writer(rt).write_all(text.as_slice()) {
        Ok(()) => Ok(()),
        Err(_) => Err(Failure::WriteFault),
    }
}

// The text for the input.
fn output(rt: &HostRuntime, alloc: Global, task: Task) -> Result<Bytes, Failure> {
    let mut input = Vec::new(alloc);
    if rt.reader().read_to_end(&mut input).is_err() {
        return Err(Failure::ReadFault);
    }
    if INPUT_LIMIT < input.len() {
        return Err(Failure::TooLong);
    }
    text_for(alloc, task, input.as_slice())
}
