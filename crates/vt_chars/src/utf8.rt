ghost use Rattle.std.specs.Prelude.{◌≡◌, ◌↔◌, [], ◌∷◌, ◌++◌};
ghost use Rattle.vt_chars.specs.Prefix.{Answers, bytes_of};
ghost use Rattle.vt_chars.specs.Push.{got_of, left_of};
ghost use Rattle.vt_chars.specs.Utf8.{Begins};

use crate::decoded::{Decoded, decode_four, decode_one, decode_three, decode_two};
use crate::got::Got;
use std::marker::Model;

// The bytes since the last result: they begin a character, so there are at most three.
#[derive(Debug, Clone, Copy, PartialEq, Eq)]
enum Prefix {
    Nothing,
    One(u8),
    Two(u8, u8),
    Three(u8, u8, u8),
}

/// Text in UTF-8, read byte by byte.
#[derive(Debug, Drop)]
pub struct Utf8 {
    kept: Prefix,
}

impl Model for Utf8 {
    ghost use Rattle.std.specs.Prelude.{ℕ, List};
    ghost use Rattle.vt_chars.specs.Prefix.{bytes_of};

    ghost Value = { List ℕ };

    ghost view = { λ u. bytes_of u.kept };
}

impl Utf8 {
    /// A reader that has read nothing.
    pub fn new() -> Utf8
        ensures { result ≡ [] }
    {
        Utf8 {
            kept: Prefix::Nothing,
        }
    }

    /// Reads a byte.
    pub fn push(&mut self, b: u8) -> Got
        ensures answer { result ≡ got_of self.old b }
        ensures more { (result ≡ Got.More) ↔ Begins (self.old ++ b ∷ []) }
        ensures rest { self.new ≡ left_of self.old b }
    {
        let (got, kept) = step(self.kept, b);
        self.kept = kept;
        got
    }
}

// The answer to b after the kept bytes, and the bytes that are then kept.
fn step(kept: Prefix, b: u8) -> (Got, Prefix)
    ensures answer { result.0 ≡ got_of (bytes_of kept) b }
    ensures rest { bytes_of result.1 ≡ left_of (bytes_of kept) b }
{
    match kept {
        Prefix::Nothing => answer(decode_one(b), Got::Bad, Prefix::One(b)),
        Prefix::One(first) => answer(decode_two(first, b), Got::BadThen, Prefix::Two(first, b)),
        Prefix::Two(first, second) => {
            answer(
                decode_three(first, second, b),
                Got::BadThen,
                Prefix::Three(first, second, b),
            )
        }
        Prefix::Three(first, second, third) => {
            answer(
                decode_four(first, second, third, b),
                Got::BadThen,
                Prefix::Nothing,
            )
        }
    }
}

// The answer is `bad` if the bytes are malformed; unfinished ones are kept as `all`.
fn answer(decoded: Decoded, bad: Got, all: Prefix) -> (Got, Prefix)
    ensures { Answers decoded bad all result.0 result.1 }
{
    match decoded {
        Decoded::Character(code) => (Got::Char(code), Prefix::Nothing),
        Decoded::Unfinished => (Got::More, all),
        Decoded::Malformed => (bad, Prefix::Nothing),
    }
}
