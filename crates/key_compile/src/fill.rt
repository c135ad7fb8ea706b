//! A symbol that stands alone on a key line, in each table.
ghost use Rattle.std.specs.Prelude.{◌≡◌, ◌≤◌};
ghost use Rattle.key_syms.specs.Act.{act};
ghost use Rattle.key_tables.specs.Tables.{hole};
ghost use Rattle.key_compile.specs.Fill.{value_with_control, filled_action, is_character_act, is_letter, is_lower, is_upper, kind_in, other_case};

use key_syms::{Action, kind};

/// The action in a table of a symbol that stands alone on a key line.
#[tactic(auto, unfolding(crate::specs::Fill::filled_action))]
pub(crate) fn filled_action(t: u8, a: Action) -> Action
    ensures { result ≡ filled_action t a }
{
    if !is_letter(a) {
        return a;
    }
    if t >= 16 {
        return hole();
    }
    Action {
        kind: kind_in(t),
        value: value_with_control(t, a.value),
    }
}

/// The action of a key that does nothing.
pub(crate) fn hole() -> Action
    ensures { result ≡ hole }
{
    Action {
        kind: kind::HOLE,
        value: 0,
    }
}

fn is_letter(a: Action) -> bool
    ensures { result ≡ is_letter a }
{
    is_character_act(a) && (is_upper(a.value) || is_lower(a.value))
}

/// Whether an action is a character, obeying CapsLock or not.
pub(crate) fn is_character_act(a: Action) -> bool
    ensures { result ≡ is_character_act a }
{
    a.kind == kind::CHARACTER || a.kind == kind::LETTER
}

fn is_upper(v: u16) -> bool
    ensures { result ≡ is_upper v }
{
    0x41 <= v && v <= 0x5A
}

fn is_lower(v: u16) -> bool
    ensures { result ≡ is_lower v }
{
    0x61 <= v && v <= 0x7A
}

fn kind_in(t: u8) -> u8
    ensures { result ≡ kind_in t }
{
    if t / 8 % 2 == 1 {
        kind::META
    } else if t / 4 % 2 == 1 {
        kind::CHARACTER
    } else {
        kind::LETTER
    }
}

fn value_with_control(t: u8, v: u16) -> u16
    requires { v ≤ 127 }
    ensures value { result ≡ value_with_control t v }
    ensures small { result ≤ 127 }
{
    let v = if t % 2 == 1 { other_case(v) } else { v };
    if t / 4 % 2 == 1 { v % 32 } else { v }
}

fn other_case(v: u16) -> u16
    ensures { result ≡ other_case v }
{
    if is_upper(v) {
        v + 32
    } else {
        v.saturating_sub(32)
    }
}
