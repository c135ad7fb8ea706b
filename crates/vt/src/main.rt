//! The program `vt`: the real streams and words, given to the commands.
#![tactic(auto)]

use std::alloc::Global;
use std::env::{Env, FillError};
use std::process::ExitCode;
use vt_base::NoMemory;
use vt_io::{OpenGate, StdSink, StdSource};
use vt_tool::{Status, vt_run};

/// The bytes of a word that are looked at: no form has a longer word.
const WORD_BYTES: usize = 64;

fn main(rt: HostRuntime) -> ExitCode {
    let status = match words_of(rt.alloc(), &rt) {
        Ok(words) => {
            let mut src = StdSource::new(rt.stdin());
            let mut out = StdSink::new(rt.stdout());
            let mut err = StdSink::new(rt.stderr());
            vt_run(
                &rt,
                rt.alloc(),
                words.as_slice(),
                &mut src,
                &mut out,
                &mut err,
                &OpenGate,
            )
        }
        Err(NoMemory) => Status::NoMemory,
    };
    ExitCode::from(status.number())
}

// The words after the program's name. A word that isn't UTF-8, or is longer than any form's, counts as the
// empty word.
fn words_of(alloc: Global, env: &impl Env) -> Result<Vec<String>, NoMemory> {
    let mut words = Vec::new(alloc);
    let mut buffer = [0; WORD_BYTES];
    for i in 1..usize::MAX {
        let len = match env.arg(i, &mut buffer) {
            Ok(len) => len,
            Err(FillError::TooLong) => 0,
            Err(FillError::NotPresent) => break,
        };
        words.push(word_of(alloc, &buffer[..len])?)?;
    }
    Ok(words)
}

fn word_of(alloc: Global, bytes: &[u8]) -> Result<String, NoMemory> {
    match str::from_utf8(bytes) {
        Ok(word) => Ok(String::from_str(alloc, word)?),
        Err(_) => Ok(String::new(alloc)),
    }
}
