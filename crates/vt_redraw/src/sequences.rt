//! Sequences, added to a text.
ghost use Rattle.std.specs.Prelude.{◌≡◌, ◌<◌, ◌≤◌, ◌+◌, ◌++◌, [], ◌∷◌, OnOk};
ghost use Rattle.vt_redraw.specs.Sequences.{coding_text, erase_text, g0_text, g1_text, keypad_text, mode_text, more_numbers, place_text, private_mode_text, sequence, shift_text, table_letter};

use std::alloc::Global;
use vt_base::{Bytes, NoMemory};

fn add_numbers(alloc: Global, text: &mut Bytes, numbers: &[u8]) -> Result<(), NoMemory>
    ensures { OnOk result (text.new.bytes ≡ text.old.bytes ++ more_numbers numbers.now) }
{
    for n in numbers {
        text.add(alloc, b";")?;
        text.add_decimal(alloc, u64::from(*n))?;
    }
    Ok(())
}

/// Adds a control sequence of at least one number.
pub(crate) fn add_sequence(
    alloc: Global,
    text: &mut Bytes,
    n: u8,
    others: &[u8],
    last: u8,
) -> Result<(), NoMemory>
    ensures { OnOk result (text.new.bytes ≡ text.old.bytes ++ sequence n others.now last) }
{
    text.add(alloc, b"\x1b[")?;
    text.add_decimal(alloc, u64::from(n))?;
    add_numbers(alloc, text, others)?;
    text.add(alloc, &[last])
}

/// Adds CUP: to a row and a column, both counted from 0.
pub(crate) fn add_place(alloc: Global, text: &mut Bytes, y: u8, x: u8) -> Result<(), NoMemory>
    requires row { y < 255 }
    requires column { x < 255 }
    ensures { OnOk result (text.new.bytes ≡ text.old.bytes ++ place_text y x) }
{
    add_sequence(alloc, text, y + 1, &[x + 1], b'H')
}

/// Adds SM or RM.
#[tactic(auto, unfolding(crate::specs::Sequences::mode_text))]
pub(crate) fn add_mode(alloc: Global, text: &mut Bytes, n: u8, on: bool) -> Result<(), NoMemory>
    ensures { OnOk result (text.new.bytes ≡ text.old.bytes ++ mode_text n on) }
{
    add_sequence(alloc, text, n, &[], if on { b'h' } else { b'l' })
}

/// Adds DECSET or DECRST.
#[tactic(auto, unfolding(crate::specs::Sequences::private_mode_text))]
pub(crate) fn add_private_mode(
    alloc: Global,
    text: &mut Bytes,
    n: u8,
    on: bool,
) -> Result<(), NoMemory>
    ensures { OnOk result (text.new.bytes ≡ text.old.bytes ++ private_mode_text n on) }
{
    text.add(alloc, b"\x1b[?")?;
    text.add_decimal(alloc, u64::from(n))?;
    text.add(alloc, &[if on { b'h' } else { b'l' }])
}

/// Adds ESC % G or ESC % @.
#[tactic(auto, unfolding(crate::specs::Sequences::coding_text))]
pub(crate) fn add_coding(alloc: Global, text: &mut Bytes, utf8: bool) -> Result<(), NoMemory>
    ensures { OnOk result (text.new.bytes ≡ text.old.bytes ++ coding_text utf8) }
{
    text.add(alloc, &[0x1B, b'%', if utf8 { b'G' } else { b'@' }])
}

/// Adds SI or SO.
#[tactic(auto, unfolding(crate::specs::Sequences::shift_text))]
pub(crate) fn add_shift(alloc: Global, text: &mut Bytes, shift: u8) -> Result<(), NoMemory>
    ensures { OnOk result (text.new.bytes ≡ text.old.bytes ++ shift_text shift) }
{
    text.add(alloc, &[if shift == 0 { 0x0F } else { 0x0E }])
}

/// Adds DECPAM or DECPNM.
#[tactic(auto, unfolding(crate::specs::Sequences::keypad_text))]
pub(crate) fn add_keypad(alloc: Global, text: &mut Bytes, on: bool) -> Result<(), NoMemory>
    ensures { OnOk result (text.new.bytes ≡ text.old.bytes ++ keypad_text on) }
{
    text.add(alloc, &[0x1B, if on { b'=' } else { b'>' }])
}

fn table_letter(table: u8) -> u8
    ensures { result ≡ table_letter table }
{
    match table {
        0 => b'B',
        1 => b'0',
        2 => b'U',
        _ => b'K',
    }
}

/// Adds the sequence that designates G0.
#[tactic(auto, unfolding(crate::specs::Sequences::g0_text))]
pub(crate) fn add_g0(alloc: Global, text: &mut Bytes, table: u8) -> Result<(), NoMemory>
    ensures { OnOk result (text.new.bytes ≡ text.old.bytes ++ g0_text table) }
{
    text.add(alloc, &[0x1B, b'(', table_letter(table)])
}

/// Adds the sequence that designates G1.
#[tactic(auto, unfolding(crate::specs::Sequences::g1_text))]
pub(crate) fn add_g1(alloc: Global, text: &mut Bytes, table: u8) -> Result<(), NoMemory>
    ensures { OnOk result (text.new.bytes ≡ text.old.bytes ++ g1_text table) }
{
    text.add(alloc, &[0x1B, b')', table_letter(table)])
}

/// Adds EL: from the cursor to the end of its row.
#[tactic(auto, unfolding(crate::specs::Sequences::erase_text))]
pub(crate) fn add_erase(alloc: Global, text: &mut Bytes) -> Result<(), NoMemory>
    ensures { OnOk result (text.new.bytes ≡ text.old.bytes ++ erase_text) }
{
    add_sequence(alloc, text, 0, &[], b'K')
}
