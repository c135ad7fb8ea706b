//! Finds the action that a name stands for.
ghost use Rattle.std.specs.Prelude.{◌≡◌, ℕ, ◌<◌, nat_lt, min, Option, IsTrue, IfSome, slice_index};
ghost use Rattle.std.specs.Option.{option_and_then, option_map};
ghost use Rattle.key_syms.specs.Act.{act, is_character};
ghost use Rattle.key_syms.specs.Names.{code_point, small_number, symbol, unlisted_action};
ghost use Rattle.key_syms.specs.Numbers.{number_if};
ghost use Rattle.key_syms.specs.Kinds.{CHARACTER, LETTER};

use crate::action::is_character;
use crate::index::{KINDS, VALUES};
use crate::numeral::{digits, number};
use crate::search::place_of;
use crate::table::NAME_COUNT;
use crate::{Action, kind};

/// The action that a name of the symbol table stands for.
pub fn by_name(name: &str) -> Option<Action>
    ensures { result ≡ symbol name.now }
{
    by_bytes(name.as_bytes())
}

/// The action of a name that is given as bytes.
pub fn by_bytes(name: &[u8]) -> Option<Action>
    ensures { result ≡ symbol name.now }
{
    match place_of(name) {
        Some(place) => Some(action_at(place)),
        None => unlisted_action(name),
    }
}

fn unlisted_action(name: &[u8]) -> Option<Action>
    ensures { result ≡ unlisted_action name.now }
{
    if name.starts_with(b"+".as_slice()) {
        let code = code_point(&name[1..])?;
        return Some(letter(code));
    }
    match code_point(name) {
        Some(code) => Some(plain(code)),
        None => {
            let code = small_number(name)?;
            Some(plain(code))
        }
    }
}

fn letter(code: u16) -> Action
    requires { IsTrue (is_character code) }
    ensures { result ≡ act LETTER code }
{
    Action {
        kind: kind::LETTER,
        value: code,
    }
}

fn plain(code: u16) -> Action
    requires { IsTrue (is_character code) }
    ensures { result ≡ act CHARACTER code }
{
    Action {
        kind: kind::CHARACTER,
        value: code,
    }
}

fn code_point(name: &[u8]) -> Option<u16>
    ensures value { result ≡ code_point name.now }
    ensures real { IfSome result (λ code. IsTrue (is_character code)) }
{
    if name.len() != 6 || !name.starts_with(b"U+".as_slice()) {
        return None;
    }
    character(digits(16, &name[2..]))
}

// The character of a number, which may be given as 65,536 if it is more.
fn character(code: Option<u32>) -> Option<u16>
    ensures value { (n : Option ℕ) → code ≡ option_map (min 65536) n
        → result ≡ option_and_then (number_if is_character) n }
    ensures real { IfSome result (λ code. IsTrue (is_character code)) }
{
    let code = code?;
    if code <= 0xFFFF && is_character(code as u16) {
        Some(code as u16)
    } else {
        None
    }
}

fn small_number(name: &[u8]) -> Option<u16>
    ensures value { result ≡ small_number name.now }
    ensures real { IfSome result (λ code. IsTrue (is_character code)) }
{
    small(number(name))
}

// The character of a number below 256.
fn small(code: Option<u32>) -> Option<u16>
    ensures value { (n : Option ℕ) → code ≡ option_map (min 65536) n
        → result ≡ option_and_then (number_if (λ m. nat_lt m 256)) n }
    ensures real { IfSome result (λ code. IsTrue (is_character code)) }
{
    let code = code?;
    if code < 256 { Some(code as u16) } else { None }
}

/// The action at a place of the table.
pub(crate) fn action_at(place: usize) -> Action
    requires { place < NAME_COUNT }
    ensures { result ≡ act (slice_index KINDS place) (slice_index VALUES place) }
{
    Action {
        kind: kind_at(place),
        value: value_at(place),
    }
}

fn kind_at(place: usize) -> u8
    requires { place < NAME_COUNT }
    ensures { result ≡ slice_index KINDS place }
{
    KINDS[place]
}

fn value_at(place: usize) -> u16
    requires { place < NAME_COUNT }
    ensures { result ≡ slice_index VALUES place }
{
    VALUES[place]
}
