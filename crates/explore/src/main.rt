//! Answers questions about every order of a session's calls (docs/reference/explore.md).
//!
//!     explore [--json] [--states N] [QUESTION ..] < SESSION
#![tactic(auto)]

mod adding;
mod answering;
mod calls;
mod ending;
mod facts;
mod input;
mod names;
mod options;
mod patterns;
mod phrase;
mod questions;
mod spelling;
mod telling;

use answering::add_answers;
use ending::Failure;
use input::session_of;
use options::{Options, options_of};
use questions::question_of;
use std::alloc::Global;
use std::io;
use std::io::{ErrorKind, Read, Write};
use std::process::ExitCode;
use telling::Teller;
use vt_base::Bytes;

/// The most bytes of input that are read.
const INPUT_LIMIT: usize = 16_777_216;

fn main(rt: HostRuntime) -> ExitCode {
    match explore(&rt) {
        Ok(()) => ExitCode::from(0),
        Err(failure) => {
            if let Ok(line) = failure.line(rt.alloc()) {
                // (if standard error takes no line, the status is all that there is)
                let _ = rt.stderr().write_all(line.as_slice());
            }
            ExitCode::from(failure.status())
        }
    }
}

fn explore(rt: &HostRuntime) -> Result<(), Failure> {
    let options = options_of(rt.alloc(), rt)?;
    let text = output(rt, rt.alloc(), &options)?;
    match io::writer(rt).write_all(text.as_slice()) {
        Ok(()) => Ok(()),
        Err(_) => Err(Failure::WriteFault),
    }
}

// The answers, in the order of the questions. Every question is read before the session is.
fn output(rt: &HostRuntime, alloc: Global, options: &Options) -> Result<Bytes, Failure> {
    let mut questions = Vec::new(alloc);
    for i in 0..options.questions.len() {
        let question = question_of(alloc, options.questions[i].as_slice(), i + 1)?;
        if questions.push(question).is_err() {
            return Err(Failure::NoMemory);
        }
    }
    let mut input = Vec::new(alloc);
    if let Err(error) = rt.reader().read_to_end(&mut input) {
        return Err(match error.kind() {
            ErrorKind::OutOfMemory => Failure::NoMemory,
            _ => Failure::ReadFault,
        });
    }
    if INPUT_LIMIT < input.len() {
        return Err(Failure::TooLong);
    }
    let session = session_of(alloc, input.as_slice())?;
    let mut text = Bytes::new(alloc);
    let mut teller = Teller::new(rt);
    let answered = add_answers(
        alloc,
        &mut text,
        options,
        &session,
        questions.as_slice(),
        &mut teller,
    );
    teller.finish();
    answered?;
    Ok(text)
}
