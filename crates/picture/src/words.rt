ghost use Rattle.std.specs.Prelude.{◌≤◌, IfSome};

use std::env::{Env, FillError};
use vt_base::{Size, parse_decimal};

/// The bytes of a word that are looked at: a number has at most three.
const WORD_BYTES: usize = 16;

/// The rows and columns, if these are the two words.
pub(crate) fn size_of_words(env: &impl Env) -> Option<Size> {
    let rows = number_at(env, 1)?;
    let cols = number_at(env, 2)?;
    let mut buffer = [0; WORD_BYTES];
    match env.arg(3, &mut buffer) {
        Ok(_) => None,
        Err(FillError::TooLong) => None,
        Err(FillError::NotPresent) => Some(Size { rows, cols }),
    }
}

// The number from 1 to 255 that a word is.
fn number_at(env: &impl Env, i: usize) -> Option<u8>
    ensures { IfSome result (λ n. 1 ≤ n) }
{
    let mut buffer = [0; WORD_BYTES];
    let len = env.arg(i, &mut buffer).ok()?;
    let n = parse_decimal(&buffer[..len], 255)?;
    if n == 0 {
        return None;
    }
    Some(n as u8)
}
