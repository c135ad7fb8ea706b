//! The dump of key tables.
ghost use Rattle.std.specs.Prelude.{◌≡◌, ◌++◌, [], codes, cond, decimal, is_some, map, IfOk, IsTrue, OnOk};
ghost use Rattle.std.specs.List.{flat_map, join_with_byte, list_all, list_any};
ghost use Rattle.key_compile.specs.Dumpable.{is_dumpable};
ghost use Rattle.key_dump.specs.Dump.{dump_of, keymaps_words, pair_words, row_text, rows_from, string_rows, table_numbers, table_rows};
ghost use Rattle.key_dump.specs.ReadsBack.{ReadsAs};
ghost use Rattle.key_syms.specs.Act.{is_character};
ghost use Rattle.key_text.specs.KeymapLine.{is_real};

use crate::code_point::add_code_point;
use crate::entries::add_table;
use crate::quoting::add_string;
use key_syms::{Pair, STRING_COUNT, TABLE_COUNT};
use key_tables::KeyTables;
use std::alloc::Global;
use vt_base::{Bytes, NoMemory};

/// Whether tables can be written as a keymap text: at least one exists, and the pairs are of
/// characters.
pub fn dumpable(tables: &KeyTables) -> bool
    ensures { result ≡ is_dumpable tables.now }
{
    has_table(tables) && are_real(tables.pairs())
}

/// The tables as a keymap text: a line with the numbers of the tables, then a line for each entry
/// that isn't a hole, for each string that isn't empty, and for each pair.
pub fn dump(alloc: Global, tables: &KeyTables) -> Result<Bytes, NoMemory>
    requires { IsTrue (is_dumpable tables.now) }
    ensures text { IfOk result (λ text. text.bytes ≡ dump_of tables.now) }
    ensures back { IfOk result (λ text. ReadsAs text.bytes tables.now) }
{
    tables.stays_whole();
    let mut text = Bytes::new(alloc);
    add_keymaps(alloc, &mut text, tables)?;
    add_tables(alloc, &mut text, tables)?;
    add_strings(alloc, &mut text, tables)?;
    add_pairs(alloc, &mut text, tables.pairs())?;
    Ok(text)
}

fn has_table(tables: &KeyTables) -> bool
    ensures { result ≡ list_any is_some tables.now.maps }
{
    tables.stays_whole();
    for t in 0..TABLE_COUNT {
        if tables.exists(t as u8) {
            return true;
        }
    }
    false
}

fn are_real(pairs: &[Pair]) -> bool
    ensures { result ≡ list_all is_real pairs.now }
{
    pairs.iter().all(|pair| is_real(*pair))
}

fn is_real(pair: Pair) -> bool
    ensures { result ≡ is_real pair }
{
    is_character(pair.accent) && is_character(pair.base) && is_character(pair.result)
}

// Adds the line of the tables that exist.
fn add_keymaps(alloc: Global, text: &mut Bytes, tables: &KeyTables) -> Result<(), NoMemory>
    ensures { OnOk result (text.new.bytes
        ≡ text.old.bytes ++ row_text (keymaps_words tables.now)) }
{
    text.add(alloc, b"keymaps ")?;
    add_numbers(alloc, text, tables)?;
    text.add(alloc, b"\n")?;
    Ok(())
}

// Adds the numbers of the tables that exist, with commas between.
fn add_numbers(alloc: Global, text: &mut Bytes, tables: &KeyTables) -> Result<(), NoMemory>
    ensures { OnOk result (text.new.bytes
        ≡ text.old.bytes ++ join_with_byte 0x2C (map decimal (table_numbers tables.now))) }
{
    let mut some = false;
    for t in 0..TABLE_COUNT {
        if tables.exists(t as u8) {
            add_comma(alloc, text, some)?;
            text.add_decimal(alloc, t as u64)?;
            some = true;
            continue;
        }
    }
    Ok(())
}

fn add_comma(alloc: Global, text: &mut Bytes, some: bool) -> Result<(), NoMemory>
    ensures { OnOk result (text.new.bytes ≡ text.old.bytes ++ cond some (codes ",") []) }
{
    if some {
        return text.add(alloc, b",");
    }
    Ok(())
}

// Adds the rows of the tables, one table after another.
fn add_tables(alloc: Global, text: &mut Bytes, tables: &KeyTables) -> Result<(), NoMemory>
    ensures { OnOk result (text.new.bytes
        ≡ text.old.bytes ++ flat_map row_text (rows_from table_rows 0 tables.now.maps)) }
{
    tables.stays_whole();
    for t in 0..TABLE_COUNT {
        add_table(alloc, text, tables, t as u8)?;
    }
    Ok(())
}

// Adds the rows of the strings that aren't empty.
fn add_strings(alloc: Global, text: &mut Bytes, tables: &KeyTables) -> Result<(), NoMemory>
    ensures { OnOk result (text.new.bytes
        ≡ text.old.bytes ++ flat_map row_text (rows_from string_rows 0 tables.now.funcs)) }
{
    tables.stays_whole();
    for i in 0..STRING_COUNT {
        add_string(alloc, text, i as u8, tables.func(i as u8))?;
    }
    Ok(())
}

// Adds the rows of the pairs.
fn add_pairs(alloc: Global, text: &mut Bytes, pairs: &[Pair]) -> Result<(), NoMemory>
    ensures { OnOk result (text.new.bytes
        ≡ text.old.bytes ++ flat_map row_text (map pair_words pairs.now)) }
{
    for i in 0..pairs.len() {
        add_pair(alloc, text, pairs[i])?;
    }
    Ok(())
}

fn add_pair(alloc: Global, text: &mut Bytes, pair: Pair) -> Result<(), NoMemory>
    ensures { OnOk result (text.new.bytes ≡ text.old.bytes ++ row_text (pair_words pair)) }
{
    text.add(alloc, b"compose ")?;
    add_code_point(alloc, text, pair.accent)?;
    text.add(alloc, b" ")?;
    add_code_point(alloc, text, pair.base)?;
    text.add(alloc, b" to ")?;
    add_code_point(alloc, text, pair.result)?;
    text.add(alloc, b"\n")?;
    Ok(())
}

fn is_character(code: u16) -> bool
    ensures { result ≡ is_character code }
{
    !(0xD800 <= code && code <= 0xDFFF)
}
