//! The listing of key tables, as `vt keys` prints it.
ghost use Rattle.std.specs.Prelude.{◌≡◌, ◌++◌, ◌≤◌, [], cond, length, OnOk};
ghost use Rattle.std.specs.List.{flat_map};
ghost use Rattle.key_tables.specs.Listing.{entry_text, func_text, listing_of, map_text, maps_text, number_text, numbers_line, pair_text, texts_from};
ghost use Rattle.key_tables.specs.Tables.{tables_of};

use crate::func_text::FuncText;
use crate::maps::Maps;
use key_syms::{Action, Pair, TABLE_COUNT, kind};
use std::alloc::Global;
use vt_base::{Bytes, NoMemory};

/// Adds the whole listing.
#[tactic(auto, using(crate::proofs::Texts::four_more), unfolding(crate::specs::Listing::listing_of))]
pub(crate) fn add_tables(
    alloc: Global,
    text: &mut Bytes,
    maps: &Maps,
    funcs: &[FuncText],
    pairs: &[Pair],
) -> Result<(), NoMemory>
    requires maps { length maps.now ≡ 256 }
    requires funcs { length funcs.now ≤ 256 }
    ensures { OnOk result (text.new.bytes
        ≡ text.old.bytes ++ listing_of (tables_of maps.now funcs.now pairs.now)) }
{
    add_maps(alloc, text, maps)?;
    add_entries(alloc, text, maps)?;
    add_funcs(alloc, text, funcs)?;
    add_pairs(alloc, text, pairs)
}

// Adds the line of the tables that exist.
fn add_maps(alloc: Global, text: &mut Bytes, maps: &Maps) -> Result<(), NoMemory>
    requires { length maps.now ≡ 256 }
    ensures { OnOk result (text.new.bytes ≡ text.old.bytes ++ maps_text maps.now) }
{
    text.add(alloc, b"maps")?;
    for t in 0..TABLE_COUNT as u16 {
        add_table(alloc, text, t, maps.exists(t as u8))?;
    }
    text.add(alloc, b"\n")
}

fn add_table(alloc: Global, text: &mut Bytes, t: u16, exists: bool) -> Result<(), NoMemory>
    ensures { OnOk result (text.new.bytes ≡ text.old.bytes ++ cond exists (number_text t) []) }
{
    if exists {
        return add_number(alloc, text, t);
    }
    Ok(())
}

// Adds a line for each entry that isn't a hole.
fn add_entries(alloc: Global, text: &mut Bytes, maps: &Maps) -> Result<(), NoMemory>
    requires { length maps.now ≡ 256 }
    ensures { OnOk result (text.new.bytes ≡ text.old.bytes ++ texts_from map_text 0 maps.now) }
{
    for t in 0..TABLE_COUNT as u16 {
        add_map(alloc, text, t, maps.entries(t as u8))?;
    }
    Ok(())
}

fn add_map(alloc: Global, text: &mut Bytes, t: u16, entries: &[Action]) -> Result<(), NoMemory>
    requires { length entries.now ≤ 256 }
    ensures { OnOk result
        (text.new.bytes ≡ text.old.bytes ++ texts_from (entry_text t) 0 entries.now) }
{
    for c in 0..entries.len() {
        add_entry(alloc, text, t, c as u16, entries[c])?;
    }
    Ok(())
}

fn add_entry(alloc: Global, text: &mut Bytes, t: u16, c: u16, a: Action) -> Result<(), NoMemory>
    ensures { OnOk result (text.new.bytes ≡ text.old.bytes ++ entry_text t c a) }
{
    if a.kind == kind::HOLE {
        return Ok(());
    }
    add_line(alloc, text, b"map", &[t, c, u16::from(a.kind), a.value])
}

// Adds a line for each string that isn't empty.
fn add_funcs(alloc: Global, text: &mut Bytes, funcs: &[FuncText]) -> Result<(), NoMemory>
    requires { length funcs.now ≤ 256 }
    ensures { OnOk result (text.new.bytes ≡ text.old.bytes ++ texts_from func_text 0 funcs.now) }
{
    for i in 0..funcs.len() {
        let func = &funcs[i];
        add_func(alloc, text, i as u16, func.as_slice())?;
    }
    Ok(())
}

fn add_func(alloc: Global, text: &mut Bytes, i: u16, func: &[u8]) -> Result<(), NoMemory>
    ensures { OnOk result (text.new.bytes ≡ text.old.bytes ++ func_text i func.now) }
{
    if func.is_empty() {
        return Ok(());
    }
    text.add(alloc, b"func")?;
    add_number(alloc, text, i)?;
    text.add(alloc, b" ")?;
    text.add_hex(alloc, func)?;
    text.add(alloc, b"\n")
}

// Adds a line for each pair.
fn add_pairs(alloc: Global, text: &mut Bytes, pairs: &[Pair]) -> Result<(), NoMemory>
    ensures { OnOk result (text.new.bytes ≡ text.old.bytes ++ flat_map pair_text pairs.now) }
{
    for pair in pairs {
        add_pair(alloc, text, *pair)?;
    }
    Ok(())
}

fn add_pair(alloc: Global, text: &mut Bytes, pair: Pair) -> Result<(), NoMemory>
    ensures { OnOk result (text.new.bytes ≡ text.old.bytes ++ pair_text pair) }
{
    add_line(alloc, text, b"pair", &[pair.accent, pair.base, pair.result])
}

fn add_line(alloc: Global, text: &mut Bytes, word: &[u8], numbers: &[u16]) -> Result<(), NoMemory>
    ensures { OnOk result
        (text.new.bytes ≡ text.old.bytes ++ numbers_line word.now numbers.now) }
{
    text.add(alloc, word)?;
    for n in numbers {
        add_number(alloc, text, *n)?;
    }
    text.add(alloc, b"\n")
}

fn add_number(alloc: Global, text: &mut Bytes, n: u16) -> Result<(), NoMemory>
    ensures { OnOk result (text.new.bytes ≡ text.old.bytes ++ number_text n) }
{
    text.add(alloc, b" ")?;
    text.add_decimal(alloc, u64::from(n))
}
