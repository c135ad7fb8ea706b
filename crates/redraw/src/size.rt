//! The size that the arguments name.
use std::env::Env;
use vt_base::{Size, parse_decimal};

/// The bytes of an argument that are looked at.
const WORD_BYTES: usize = 8;

/// The rows and columns in the two arguments, if each is a number from 1 to 255.
pub(crate) fn size_of(env: &impl Env) -> Option<Size> {
    let rows = number_at(env, 1)?;
    let cols = number_at(env, 2)?;
    let mut buffer = [0; WORD_BYTES];
    if env.arg(3, &mut buffer).is_ok() || rows == 0 || cols == 0 {
        return None;
    }
    Some(Size { rows, cols })
}

// The number in an argument, at most 255.
fn number_at(env: &impl Env, place: usize) -> Option<u8> {
    let mut buffer = [0; WORD_BYTES];
    let len = env.arg(place, &mut buffer).ok()?;
    let number = parse_decimal(&buffer[..len], 255)?;
    Some(number as u8)
}
