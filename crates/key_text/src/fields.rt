//! The items of a line: a word, a number, a symbol, a quoted text, a character.
ghost use Rattle.std.specs.Prelude.{◌≡◌, ◌≤◌, ℕ, Option, length, IfOk, min, IsTrue};
ghost use Rattle.std.specs.Option.{option_map};
ghost use Rattle.key_syms.specs.Act.{is_character};
ghost use Rattle.key_text.specs.Quoted.{character_of};
ghost use Rattle.key_text.specs.Fault.{Gives};
ghost use Rattle.key_text.specs.Fields.{action_of, character_at, character_in, code_at, end_of_line, function_at, function_by, good, is_quoted, keyword_at, named_character, number_in_range, real, string_at, text_at};

use crate::fault::KeyError;
use crate::fault_kind::{
    BAD_TEXT, LEFT_OVER, LONG_STRING, OUT_OF_RANGE, UNKNOWN_SYMBOL, UNKNOWN_WORD,
};
use crate::named::{named_action, named_number};
use crate::placed::{Place, Placed};
use crate::quoted::{character_of, text_of};
use crate::words::{check_utf8, fault, is_quote, is_word, next, place_of_word, word_at};
use key_syms::{Action, STRING_BYTES, kind};
use std::alloc::Global;

/// The row ends: no word is left.
#[tactic(auto, unfolding(crate::specs::Fields::end_of_line))]
pub(crate) fn end_of_line(alloc: Global, items: &[Placed]) -> Result<(), KeyError>
    ensures { Gives (λ x. x) result (end_of_line items.now) }
{
    match word_at(items) {
        Some((word, rest)) => {
            let (word, _rest) = check_utf8(alloc, word, rest)?;
            Err(fault(LEFT_OVER, place_of_word(word)))
        }
        None => Ok(()),
    }
}

/// This keyword, and the rest of the row.
#[tactic(auto, unfolding(crate::specs::Fields::keyword_at))]
pub(crate) fn keyword_at<'a>(
    alloc: Global,
    text: &[u8],
    end: Place,
    items: &'a [Placed],
) -> Result<&'a [Placed], KeyError>
    ensures { Gives (λ rest. rest.now) result (keyword_at text.now end items.entry.now) }
{
    let (word, rest) = next(alloc, UNKNOWN_WORD, end, items)?;
    if is_word(text, word) {
        return Ok(rest);
    }
    Err(fault(UNKNOWN_WORD, place_of_word(word)))
}

/// A number of a word, within a range. A greater number may be given as 65,536.
pub(crate) fn number_in_range(
    low: u32,
    high: u32,
    word: &[Placed],
    n: Option<u32>,
) -> Result<u8, KeyError>
    requires { high ≤ 255 }
    ensures value { (m : Option ℕ) → n ≡ option_map (min 65536) m
        → Gives (λ x. x) result (number_in_range low high word.now m) }
    ensures within { IfOk result (λ x. (low ≤ x) × (x ≤ high)) }
{
    match n {
        Some(n) => {
            if low <= n && n <= high {
                return Ok(n as u8);
            }
            Err(fault(OUT_OF_RANGE, place_of_word(word)))
        }
        None => Err(fault(UNKNOWN_WORD, place_of_word(word))),
    }
}

/// A keycode, and the rest of the row.
#[tactic(auto, unfolding(crate::specs::Fields::code_at))]
pub(crate) fn code_at(
    alloc: Global,
    end: Place,
    items: &[Placed],
) -> Result<(u8, &[Placed]), KeyError>
    ensures value { Gives (λ x. (x.0, x.1.now)) result (code_at end items.now) }
    ensures key { IfOk result (λ x. 1 ≤ x.0) }
{
    let (word, rest) = next(alloc, UNKNOWN_WORD, end, items)?;
    let code = number_in_range(1, 255, word, named_number(alloc, word)?)?;
    Ok((code, rest))
}

/// The action of a word that is a symbol.
pub(crate) fn action_of(alloc: Global, word: &[Placed]) -> Result<Action, KeyError>
    ensures { Gives (λ x. x) result (action_of word.now) }
{
    match named_action(alloc, word)? {
        Some(action) => Ok(action),
        None => Err(fault(UNKNOWN_SYMBOL, place_of_word(word))),
    }
}

/// The function key that a word names, and the rest of the row.
#[tactic(auto, unfolding(crate::specs::Fields::function_at))]
pub(crate) fn function_at(
    alloc: Global,
    end: Place,
    items: &[Placed],
) -> Result<(u8, &[Placed]), KeyError>
    ensures { Gives (λ x. (x.0, x.1.now)) result (function_at end items.now) }
{
    let (word, rest) = next(alloc, UNKNOWN_SYMBOL, end, items)?;
    let action = action_of(alloc, word)?;
    let func = function_by(word, action)?;
    Ok((func, rest))
}

fn function_by(word: &[Placed], action: Action) -> Result<u8, KeyError>
    ensures { Gives (λ x. x) result (function_by word.now action) }
{
    if action.kind == kind::FUNCTION {
        return Ok(action.value as u8);
    }
    Err(fault(UNKNOWN_SYMBOL, place_of_word(word)))
}

/// A quoted text, the place of its word, and the rest of the row.
#[tactic(auto, unfolding(crate::specs::Fields::text_at))]
pub(crate) fn text_at(
    alloc: Global,
    end: Place,
    items: &[Placed],
) -> Result<(Vec<u8>, Place, &[Placed]), KeyError>
    ensures { Gives (λ x. (x.0.items, x.1, x.2.now)) result (text_at end items.now) }
{
    let (word, rest) = next(alloc, BAD_TEXT, end, items)?;
    match text_of(alloc, word)? {
        Some(text) => Ok((text, place_of_word(word), rest)),
        None => Err(fault(BAD_TEXT, place_of_word(word))),
    }
}

/// A string of a function key, and the rest of the row.
#[tactic(auto, unfolding(crate::specs::Fields::string_at))]
pub(crate) fn string_at(
    alloc: Global,
    end: Place,
    items: &[Placed],
) -> Result<(Vec<u8>, &[Placed]), KeyError>
    ensures value { Gives (λ x. (x.0.items, x.1.now)) result (string_at end items.now) }
    ensures short { IfOk result (λ x. length x.0.items ≤ 255) }
{
    let (text, at, rest) = text_at(alloc, end, items)?;
    if text.len() <= STRING_BYTES {
        return Ok((text, rest));
    }
    Err(fault(LONG_STRING, at))
}

// The character that a word stands for: quoted, or a symbol.
#[tactic(auto, unfolding(crate::specs::Fields::character_in))]
fn character_in(alloc: Global, word: &[Placed]) -> Result<u16, KeyError>
    ensures value { Gives (λ x. x) result (character_in word.now) }
    ensures real { IfOk result (λ code. IsTrue (is_character code)) }
{
    let code = if is_quoted(word) {
        quoted_character(alloc, word)?
    } else {
        named_character(alloc, word)?
    };
    real(word, code)
}

fn quoted_character(alloc: Global, word: &[Placed]) -> Result<u32, KeyError>
    ensures { Gives (λ x. x) result (good word.now (character_of word.now)) }
{
    match character_of(alloc, word)? {
        Some(code) => Ok(code),
        None => Err(fault(BAD_TEXT, place_of_word(word))),
    }
}

fn named_character(alloc: Global, word: &[Placed]) -> Result<u32, KeyError>
    ensures { Gives (λ x. x) result (named_character word.now) }
{
    let action = action_of(alloc, word)?;
    if action.kind == kind::CHARACTER {
        return Ok(u32::from(action.value));
    }
    Err(fault(UNKNOWN_SYMBOL, place_of_word(word)))
}

fn real(word: &[Placed], code: u32) -> Result<u16, KeyError>
    ensures value { Gives (λ x. x) result (real word.now code) }
    ensures real { IfOk result (λ code. IsTrue (is_character code)) }
{
    if code <= 0xFFFF && !(0xD800 <= code && code <= 0xDFFF) {
        return Ok(code as u16);
    }
    Err(fault(UNKNOWN_SYMBOL, place_of_word(word)))
}

fn is_quoted(word: &[Placed]) -> bool
    ensures { result ≡ is_quoted word.now }
{
    match word.first() {
        Some(p) => is_quote(p.byte),
        None => false,
    }
}

/// A character, and the rest of the row.
#[tactic(auto, unfolding(crate::specs::Fields::character_at))]
pub(crate) fn character_at(
    alloc: Global,
    end: Place,
    items: &[Placed],
) -> Result<(u16, &[Placed]), KeyError>
    ensures value { Gives (λ x. (x.0, x.1.now)) result (character_at end items.now) }
    ensures real { IfOk result (λ x. IsTrue (is_character x.0)) }
{
    let (word, rest) = next(alloc, UNKNOWN_SYMBOL, end, items)?;
    let code = character_in(alloc, word)?;
    Ok((code, rest))
}
