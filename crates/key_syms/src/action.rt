ghost use Rattle.std.specs.Prelude.{◌≡◌, ◌↔◌, IsSome, IfSome, IsTrue};
ghost use Rattle.key_syms.specs.Act.{act, is_action, is_character};

use crate::kind;
use std::marker::Model;

/// An action of a key: a kind of [`crate::kind`] and a value. Each action is in the table of
/// docs/reference/keys.md.
#[derive(Clone, Copy, Debug, PartialEq, Eq)]
pub struct Action {
    pub kind: u8,
    pub value: u16,
}

impl Model for Action {
    ghost use Rattle.std.specs.Prelude.{IsTrue};
    ghost use Rattle.key_syms.specs.Act.{Act, act, is_action};

    ghost Value = { Act };

    ghost view = { λ a. act a.kind a.value };

    ghost invariant = { λ a. IsTrue (is_action a.kind a.value) };

    ghost inverse = { λ a. record { kind = a.kind; value = a.value } };
}

impl Action {
    /// The action of a kind and a value, if the table has it.
    pub fn new(kind: u16, value: u16) -> Option<Action>
        ensures known { IsSome result ↔ IsTrue (is_action kind value) }
        ensures action { IfSome result (λ a. a ≡ act kind value) }
    {
        if kind > u16::from(kind::ASCII) || !is_value(kind as u8, value) {
            return None;
        }
        Some(Action {
            kind: kind as u8,
            value,
        })
    }
}

// Whether a kind has the value.
fn is_value(kind: u8, value: u16) -> bool
    ensures { result ≡ is_action kind value }
{
    match kind {
        kind::HOLE => value == 0,
        kind::CHARACTER | kind::LETTER => is_character(value),
        kind::META => value <= 127,
        kind::FUNCTION => value <= 255,
        kind::PAD => value <= 16,
        kind::CURSOR => value <= 3,
        kind::DEAD => value <= 5,
        kind::MODIFIER | kind::LOCK | kind::STICKY => value <= 7,
        kind::CONSOLE => 1 <= value && value <= 63,
        kind::SPECIAL => 1 <= value && value <= 19,
        kind::ASCII => value <= 9,
        _ => false,
    }
}

/// Whether a code of 16 bits is no surrogate.
pub(crate) fn is_character(code: u16) -> bool
    ensures { result ≡ is_character code }
{
    !(0xD800 <= code && code <= 0xDFFF)
}
