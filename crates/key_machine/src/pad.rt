//! The cursor keys, the numeric pad and the function keys.
ghost use Rattle.std.specs.Prelude.{◌≡◌, ◌≤◌, slice_index};
ghost use Rattle.key_machine.specs.Bytes.{out_of};
ghost use Rattle.key_machine.specs.Pads.{cursor_bytes, cursor_letters, pad_bytes, pad_characters, pad_letters, pad_off, pad_on};
ghost use Rattle.key_machine.specs.ShortOuts.{out_with};
ghost use Rattle.key_tables.specs.Tables.{Tables};

use crate::bytes::{return_bytes, sent};
use crate::{FewBytes, KeyModes, ShortOut, cursor, flag, function};

/// KP_Enter.
pub(crate) const ENTER: u16 = 14;

// The letters of the pad's keys with DECPAM, by the values of the keys.
static LETTERS: [u8; 17] = *b"pqrstuvwxylSRQMnn";

// Their characters.
static CHARACTERS: [u8; 17] = *b"0123456789+-*/\r,.";

/// The bytes of a cursor key.
#[tactic(auto, unfolding(crate::specs::Pads::cursor_bytes))]
pub(crate) fn cursor_bytes(application: bool, v: u16) -> FewBytes
    requires { v ≤ 3 }
    ensures { result ≡ cursor_bytes application v }
{
    let intro = if application { b'O' } else { b'[' };
    FewBytes::of(&[0x1B, intro, cursor_letter(v)])
}

fn cursor_letter(v: u16) -> u8
    requires { v ≤ 3 }
    ensures { result ≡ slice_index cursor_letters v }
{
    match v {
        cursor::DOWN => b'B',
        cursor::LEFT => b'D',
        cursor::RIGHT => b'C',
        _ => b'A',
    }
}

/// The bytes of a key of the pad, with the weight of the modifiers that are down.
#[tactic(auto, unfolding(crate::specs::Pads::pad_bytes), using(crate::proofs::Outs::outs))]
pub(crate) fn pad_out(m: KeyModes, weight: u8, flags: u8, v: u16) -> ShortOut
    requires { v ≤ 16 }
    ensures { (tables : Tables) → out_with tables result ≡ out_of (pad_bytes tables m weight flags v) }
{
    if m.keypad && weight == 0 {
        sent(FewBytes::of(&[0x1B, b'O', LETTERS[usize::from(v)]]))
    } else if flags & flag::NUM != 0 {
        sent(with_num(m.newline, v))
    } else {
        without_num(m, v)
    }
}

#[tactic(auto, unfolding(crate::specs::Pads::pad_on))]
fn with_num(newline: bool, v: u16) -> FewBytes
    requires { v ≤ 16 }
    ensures { result ≡ pad_on newline v }
{
    if v == ENTER {
        return_bytes(newline)
    } else {
        FewBytes::of(&[CHARACTERS[usize::from(v)]])
    }
}

#[tactic(auto, unfolding(crate::specs::Pads::pad_off), using(crate::proofs::Outs::outs))]
fn without_num(m: KeyModes, v: u16) -> ShortOut
    requires { v ≤ 16 }
    ensures { (tables : Tables) → out_with tables result ≡ out_of (pad_off tables m v) }
{
    match v {
        0 => ShortOut::Function(function::INSERT),
        1 => ShortOut::Function(function::SELECT),
        2 => sent(cursor_bytes(m.cursor, cursor::DOWN)),
        3 => ShortOut::Function(function::NEXT),
        4 => sent(cursor_bytes(m.cursor, cursor::LEFT)),
        5 => sent(FewBytes::of(b"\x1B[G")),
        6 => sent(cursor_bytes(m.cursor, cursor::RIGHT)),
        7 => ShortOut::Function(function::FIND),
        8 => sent(cursor_bytes(m.cursor, cursor::UP)),
        9 => ShortOut::Function(function::PRIOR),
        15 | 16 => ShortOut::Function(function::REMOVE),
        _ => sent(with_num(m.newline, v)),
    }
}
