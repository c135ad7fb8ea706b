//! `name_of`: finds the name of an action.
ghost use Rattle.std.specs.Prelude.{◌≡◌, ◌<◌, ◌≤◌, nat_lt, length, slice_index, IsTrue};
ghost use Rattle.std.specs.List.{list_all};
ghost use Rattle.key_syms.specs.Act.{act};
ghost use Rattle.key_syms.specs.Names.{code_name, hex_digit, name_text, same_act};
ghost use Rattle.key_syms.specs.declared.index.TheConstants.{KINDS, VALUES};

use crate::search::name_at;
use crate::symbol::action_at;
use crate::table::NAME_COUNT;
use crate::{Action, kind};
use arrayvec::ArrayString;

/// The first name of an action in the symbol table. A character without one is named by its code
/// point, `U+xxxx`, and a letter without one `+U+xxxx`.
pub fn name_of(a: Action) -> ArrayString<32>
    ensures { result.bytes ≡ name_text a }
{
    for place in 0..NAME_COUNT {
        if is_action_of(place, a) {
            return text_of(name_at(place));
        }
    }
    code_name(a)
}

fn is_action_of(place: usize, a: Action) -> bool
    requires { place < NAME_COUNT }
    ensures { result ≡ same_act (act (slice_index KINDS place) (slice_index VALUES place)) a }
{
    action_at(place) == a
}

fn text_of(name: &[u8]) -> ArrayString<32>
    requires short { length name.now ≤ 32 }
    requires ascii { IsTrue (list_all (λ b. nat_lt b 128) name.now) }
    ensures { result.bytes ≡ name.now }
{
    let mut text = ArrayString::new();
    for b in name {
        text.push(char::from(*b));
    }
    text
}

fn code_name(a: Action) -> ArrayString<32>
    ensures { result.bytes ≡ code_name a }
{
    let mut text = ArrayString::new();
    text.push_str(if a.kind == kind::LETTER { "+U+" } else { "U+" });
    text.push(hex_digit(a.value / 4096 % 16));
    text.push(hex_digit(a.value / 256 % 16));
    text.push(hex_digit(a.value / 16 % 16));
    text.push(hex_digit(a.value % 16));
    text
}

fn hex_digit(d: u16) -> char
    requires { d < 16 }
    ensures value { result ≡ hex_digit d }
    ensures ascii { result < 128 }
{
    let d = d as u8;
    char::from(if d < 10 { b'0' + d } else { b'A' + (d - 10) })
}
