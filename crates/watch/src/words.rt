use crate::form::Form;
use crate::task::Task;
use std::env::{Env, FillError};

/// The bytes of a word that are looked at.
const WORD_BYTES: usize = 16;

/// A word of the program, as far as it matters.
#[derive(Clone, Copy)]
enum Word {
    None,
    Free,
    Json,
    Other,
}

/// What the program's words ask for, if they are of the form.
pub(crate) fn task_of_words(env: &impl Env) -> Option<Task> {
    let (is_free, form) = match (word_at(env, 1), word_at(env, 2), word_at(env, 3)) {
        (Word::None, _, _) => (false, Form::Lines),
        (Word::Json, Word::None, _) => (false, Form::Json),
        (Word::Free, Word::None, _) => (true, Form::Lines),
        (Word::Free, Word::Json, Word::None) => (true, Form::Json),
        _ => return None,
    };
    Some(Task { is_free, form })
}

fn word_at(env: &impl Env, at: usize) -> Word {
    let mut buffer = [0; WORD_BYTES];
    match env.arg(at, &mut buffer) {
        Ok(len) => meaning(&buffer[..len]),
        Err(FillError::TooLong) => Word::Other,
        Err(FillError::NotPresent) => Word::None,
    }
}

fn meaning(word: &[u8]) -> Word {
    if word == b"free".as_slice() {
        return Word::Free;
    }
    if word == b"json".as_slice() {
        return Word::Json;
    }
    Word::Other
}
