//! Key tables that are filled by hand, and their listing; of two pairs of the same characters the first one is found.
use key_syms::{Action, Pair};
use key_tables::KeyTables;
use std::alloc::Global;
use std::test::Fail;
use vt_base::NoMemory;

/// The second one is never found, since the first one comes before it.
const PAIRS: [Pair; 2] = [
    Pair {
        accent: 96,
        base: 97,
        result: 224,
    },
    Pair {
        accent: 96,
        base: 97,
        result: 65,
    },
];

const LISTING: &[u8] =
    b"maps 0 1\nmap 0 2 1 49\nmap 1 2 1 33\nfunc 0 1b5b41\npair 96 97 224\npair 96 97 65\n";

#[test]
fn listing_has_what_was_set(rt: HostRuntime) -> Result<(), Fail> {
    let empty = matches!(lists_nothing(rt.alloc()), Ok(true));
    assert!(rt; empty);
    let set = matches!(lists_what_was_set(rt.alloc()), Ok(true));
    assert!(rt; set);
    Ok(())
}

fn lists_nothing(alloc: Global) -> Result<bool, NoMemory> {
    let tables = KeyTables::empty(alloc, &[1, 0, 1])?;
    is_listed(alloc, &tables, true, b"maps 0 1\n")
}

fn lists_what_was_set(alloc: Global) -> Result<bool, NoMemory> {
    let mut tables = KeyTables::empty(alloc, &[1, 0, 1])?;
    set_character(&mut tables, 0, 49);
    set_character(&mut tables, 1, 33);
    tables.set_func(0, b"\x1B[A");
    tables.set_pairs(&PAIRS);
    let answers = has_entries(&tables) && has_texts(&tables);
    is_listed(alloc, &tables, answers, LISTING)
}

// Sets a character at key 2 of a table.
fn set_character(tables: &mut KeyTables, table: u8, value: u16) {
    if let Some(action) = Action::new(1, value) {
        if tables.exists(table) {
            tables.set_entry(table, 2, action);
        }
    }
}

fn has_entries(tables: &KeyTables) -> bool {
    tables.exists(0)
        && tables.exists(1)
        && !tables.exists(2)
        && is_entry(tables.entry(0, 2), 1, 49)
        && is_entry(tables.entry(1, 3), 0, 0)
        && tables.entry(2, 2).is_none()
}

fn is_entry(found: Option<Action>, kind: u8, value: u16) -> bool {
    match found {
        Some(action) => action.kind == kind && action.value == value,
        None => false,
    }
}

fn has_texts(tables: &KeyTables) -> bool {
    tables.func(0) == b"\x1B[A".as_slice()
        && tables.find(96, 97) == Some(224)
        && tables.find(97, 96).is_none()
        && tables.pairs().len() == 2
}

// Whether all other calls had their answers, and the listing is this text.
fn is_listed(
    alloc: Global,
    tables: &KeyTables,
    answers: bool,
    wanted: &[u8],
) -> Result<bool, NoMemory> {
    let text = tables.listing(alloc)?;
    Ok(answers && text.as_slice() == wanted)
}
