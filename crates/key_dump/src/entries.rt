//! The rows of a table's entries.
ghost use Rattle.std.specs.Prelude.{◌≡◌, ◌≤◌, ◌/◌, ◌%◌, ◌==◌, ◌++◌, [], cond, OnOk};
ghost use Rattle.std.specs.List.{flat_map};
ghost use Rattle.std.specs.Option.{option_map_or};
ghost use Rattle.key_syms.specs.Kinds.{HOLE};
ghost use Rattle.key_tables.specs.Tables.{map_of};
ghost use Rattle.key_dump.specs.Dump.{entry_rows, entry_words, modifier_words, row_text, table_rows};
ghost use Rattle.key_dump.specs.Spaced.{blank_after_each};

use key_syms::{Action, KEYCODES, kind, name_of};
use key_tables::KeyTables;
use std::alloc::Global;
use vt_base::{Bytes, NoMemory};

/// Adds the rows of a table, if it exists.
pub(crate) fn add_table(
    alloc: Global,
    text: &mut Bytes,
    tables: &KeyTables,
    t: u8,
) -> Result<(), NoMemory>
    ensures { OnOk result (text.new.bytes
        ≡ text.old.bytes ++ flat_map row_text (table_rows t (map_of tables.now t))) }
{
    if !tables.exists(t) {
        return Ok(());
    }
    for c in 0..KEYCODES {
        add_entry(alloc, text, t, c as u8, tables.entry(t, c as u8))?;
    }
    Ok(())
}

// Adds the row of an entry, if it exists and isn't a hole.
fn add_entry(
    alloc: Global,
    text: &mut Bytes,
    t: u8,
    c: u8,
    entry: Option<Action>,
) -> Result<(), NoMemory>
    ensures { OnOk result (text.new.bytes
        ≡ text.old.bytes ++ option_map_or (λ a. flat_map row_text (entry_rows t c a)) entry []) }
{
    match entry {
        Some(action) => add_action(alloc, text, t, c, action),
        None => Ok(()),
    }
}

fn add_action(alloc: Global, text: &mut Bytes, t: u8, c: u8, action: Action) -> Result<(), NoMemory>
    ensures { OnOk result (text.new.bytes
        ≡ text.old.bytes ++ flat_map row_text (entry_rows t c action)) }
{
    if is_hole(action) {
        return Ok(());
    }
    add_entry_row(alloc, text, t, c, action)
}

fn is_hole(a: Action) -> bool
    ensures { result ≡ (a.kind == HOLE) }
{
    a.kind == kind::HOLE
}

fn add_entry_row(
    alloc: Global,
    text: &mut Bytes,
    t: u8,
    c: u8,
    action: Action,
) -> Result<(), NoMemory>
    ensures { OnOk result (text.new.bytes
        ≡ text.old.bytes ++ row_text (entry_words t c action)) }
{
    add_modifiers(alloc, text, t)?;
    text.add(alloc, b"keycode ")?;
    text.add_decimal(alloc, u64::from(c))?;
    text.add(alloc, b" = ")?;
    text.add(alloc, name_of(action).as_bytes())?;
    text.add(alloc, b"\n")?;
    Ok(())
}

// Adds the words of a table's modifiers, with a blank after each.
fn add_modifiers(alloc: Global, text: &mut Bytes, t: u8) -> Result<(), NoMemory>
    ensures { OnOk result (text.new.bytes ≡ text.old.bytes ++ blank_after_each (modifier_words t)) }
{
    if t == 0 {
        return text.add(alloc, b"plain ");
    }
    add_modifier(alloc, text, t, 1, b"shift ")?;
    add_modifier(alloc, text, t, 2, b"altgr ")?;
    add_modifier(alloc, text, t, 4, b"control ")?;
    add_modifier(alloc, text, t, 8, b"alt ")?;
    add_modifier(alloc, text, t, 16, b"shiftl ")?;
    add_modifier(alloc, text, t, 32, b"shiftr ")?;
    add_modifier(alloc, text, t, 64, b"ctrll ")?;
    add_modifier(alloc, text, t, 128, b"ctrlr ")?;
    Ok(())
}

fn add_modifier(
    alloc: Global,
    text: &mut Bytes,
    t: u8,
    weight: u8,
    word: &[u8],
) -> Result<(), NoMemory>
    requires { 1 ≤ weight }
    ensures { OnOk result (text.new.bytes
        ≡ text.old.bytes ++ cond (t / weight % 2 == 1) word.now []) }
{
    if t / weight % 2 == 1 {
        return text.add(alloc, word);
    }
    Ok(())
}
