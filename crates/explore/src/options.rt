//! The program's words.
use crate::ending::Failure;
use std::alloc::Global;
use std::env::{Env, FillError};
use vt_base::{Bytes, parse_decimal};

/// The most bytes of a word.
const WORD_BYTES: usize = 4_096;

/// The most states that are told apart, if no word says another number.
const STATES: usize = 1_000_000;

/// The most words.
const WORDS: usize = 1_024;

/// What the words ask for.
#[derive(Drop)]
pub(crate) struct Options {
    /// One line of JSON for each answer, in place of lines for a person.
    pub json: bool,
    /// The most states that are told apart.
    pub states: usize,
    pub questions: Vec<Bytes>,
}

/// Reads the words.
pub(crate) fn options_of(alloc: Global, env: &impl Env) -> Result<Options, Failure> {
    let mut options = Options {
        json: false,
        states: STATES,
        questions: Vec::new(alloc),
    };
    let mut counting = false;
    for i in 1..WORDS {
        let Some(word) = word_at(alloc, env, i)? else {
            return finished(options, counting);
        };
        counting = take(&mut options, counting, word)?;
    }
    Err(Failure::Usage)
}

fn finished(options: Options, counting: bool) -> Result<Options, Failure> {
    if counting {
        return Err(Failure::Usage);
    }
    Ok(options)
}

// Takes a word. Returns whether the next one is a number of states.
fn take(options: &mut Options, counting: bool, word: Bytes) -> Result<bool, Failure> {
    if counting {
        options.states = states_of(word.as_slice())?;
        return Ok(false);
    }
    if word.as_slice() == b"--json".as_slice() {
        options.json = true;
        return Ok(false);
    }
    if word.as_slice() == b"--states".as_slice() {
        return Ok(true);
    }
    match options.questions.push(word) {
        Ok(()) => Ok(false),
        Err(_) => Err(Failure::NoMemory),
    }
}

fn states_of(word: &[u8]) -> Result<usize, Failure> {
    match parse_decimal(word, 1_000_000_000) {
        Some(states) => Ok(states as usize),
        None => Err(Failure::Usage),
    }
}

fn word_at(alloc: Global, env: &impl Env, i: usize) -> Result<Option<Bytes>, Failure> {
    let mut buffer = [0; WORD_BYTES];
    match env.arg(i, &mut buffer) {
        Ok(len) => Ok(Some(Bytes::from_slice(alloc, &buffer[..len])?)),
        Err(FillError::TooLong) => Err(Failure::Usage),
        Err(FillError::NotPresent) => Ok(None),
    }
}
