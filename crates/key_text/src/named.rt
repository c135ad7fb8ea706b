//! The actions and numbers that words name.
ghost use Rattle.std.specs.Prelude.{◌≡◌, ◌≤◌, length, min, take, IfOk};
ghost use Rattle.std.specs.Option.{option_map};
ghost use Rattle.key_syms.specs.Names.{symbol};
ghost use Rattle.key_syms.specs.Numbers.{number_of};
ghost use Rattle.key_text.specs.Words.{bytes};

use crate::placed::Placed;
use crate::words::bytes;
use key_syms::{Action, by_bytes, number};
use std::alloc::{AllocError, Global};

// The most bytes of a word that are copied without memory of their own. Every listed name is shorter.
const SHORT: usize = 32;

/// The action that a word names.
pub(crate) fn named_action(alloc: Global, word: &[Placed]) -> Result<Option<Action>, AllocError>
    ensures { IfOk result (λ action. action ≡ symbol (bytes word.now)) }
{
    if word.len() <= SHORT {
        let text = short_bytes(word);
        return Ok(by_bytes(&text[..word.len()]));
    }
    let text = bytes(alloc, word)?;
    Ok(by_bytes(text.as_slice()))
}

/// The number that a word spells. A greater one may be given as 65,536.
pub(crate) fn named_number(alloc: Global, word: &[Placed]) -> Result<Option<u32>, AllocError>
    ensures { IfOk result (λ n. n ≡ option_map (min 65536) (number_of (bytes word.now))) }
{
    if word.len() <= SHORT {
        let text = short_bytes(word);
        return Ok(number(&text[..word.len()]));
    }
    let text = bytes(alloc, word)?;
    Ok(number(text.as_slice()))
}

// The bytes of a short word, followed by bytes that don't matter.
fn short_bytes(word: &[Placed]) -> [u8; SHORT]
    requires { length word.now ≤ 32 }
    ensures { take (length word.now) result ≡ bytes word.now }
{
    let mut text = [0; SHORT];
    for i in 0..word.len() {
        text[i] = word[i].byte;
    }
    text
}
