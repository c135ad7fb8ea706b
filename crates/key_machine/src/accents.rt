//! Accents, and the characters that they make.
ghost use Rattle.std.specs.Prelude.{◌≡◌, ◌==◌, if◌then◌else◌};
ghost use Rattle.key_machine.specs.Codes.{codes_of, typed_of};
ghost use Rattle.key_machine.specs.Compose.{accent_of, character, dead, joined_by, waits};
ghost use Rattle.key_machine.specs.Keys.{nothing_waits};
ghost use Rattle.key_tables.specs.Tables.{found_in};

use crate::waiting::Waiting;
use key_tables::KeyTables;

const SPACE: u16 = 0x20;

/// The characters that go out.
#[derive(Clone, Copy, Debug, PartialEq, Eq)]
pub(crate) enum TypedCodes {
    Zero,
    One(u16),
    Two(u16, u16),
}

/// A character is typed.
#[tactic(auto, unfolding(crate::specs::Compose::character))]
pub(crate) fn character(t: &KeyTables, waiting: Waiting, code: u16) -> (TypedCodes, Waiting)
    ensures { typed_of result.0 result.1 ≡ character t.now.pairs waiting code }
{
    if waiting.composing {
        return (TypedCodes::Zero, Waiting::accent(code));
    }
    match waiting.accent {
        None => (TypedCodes::One(code), Waiting::nothing()),
        Some(before) => (join(t.find(before, code), before, code), Waiting::nothing()),
    }
}

// The characters of an accent and a character, if their pair has this result.
fn join(pair: Option<u16>, accent: u16, code: u16) -> TypedCodes
    ensures { codes_of result ≡ joined_by pair accent code }
{
    match pair {
        Some(made) => TypedCodes::One(made),
        None => {
            if code == SPACE || code == accent {
                TypedCodes::One(accent)
            } else {
                TypedCodes::Two(accent, code)
            }
        }
    }
}

/// A dead key with this accent is typed.
#[tactic(auto, unfolding(crate::specs::Compose::dead))]
pub(crate) fn dead(t: &KeyTables, waiting: Waiting, new: u16) -> (TypedCodes, Waiting)
    ensures { typed_of result.0 result.1 ≡ dead t.now.pairs waiting new }
{
    if waiting.composing {
        return (TypedCodes::Zero, Waiting::accent(new));
    }
    match waiting.accent {
        None => (TypedCodes::Zero, Waiting::accent(new)),
        Some(before) => match t.find(before, new) {
            Some(made) => (TypedCodes::One(made), Waiting::nothing()),
            None => (TypedCodes::One(before), second(before, new)),
        },
    }
}

// The accent that waits after two accents that no pair joins.
fn second(accent: u16, new: u16) -> Waiting
    ensures { result ≡ (if accent == new then nothing_waits else waits new) }
{
    if accent == new {
        Waiting::nothing()
    } else {
        Waiting::accent(new)
    }
}

/// The accent of a dead key.
#[tactic(auto, unfolding(crate::specs::Compose::accent_of))]
pub(crate) fn accent_of(v: u16) -> u16
    ensures { result ≡ accent_of v }
{
    u16::from(match v {
        0 => b'`',
        1 => b'\'',
        2 => b'^',
        3 => b'~',
        4 => b'"',
        _ => b',',
    })
}
