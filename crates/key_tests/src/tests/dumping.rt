//! The dumps of tables, and the tables that are read from them again.
use super::checks::{check, check_made};
use super::compiled::{is_listed, tables_of};
use key_dump::{dump, dumpable};
use key_tables::KeyTables;
use std::alloc::Global;
use vt_base::{Bytes, NoMemory};

// A keymap text, and the dump of its tables.
const DUMPS: &[(&[u8], &[u8])] = &[
    (
        b"keymaps 0-1,4\nkeycode 30 = a",
        b"keymaps 0,1,4\nplain keycode 30 = +a\nshift keycode 30 = +A\ncontrol keycode 30 = Control_a\n",
    ),
    (
        b"keymaps 0-1\nkeycode 2 = one exclam\nstring F1 = \"\\033[A\"",
        b"keymaps 0,1\nplain keycode 2 = one\nshift keycode 2 = exclam\nstring F1 = \"\\033[A\"\n",
    ),
    (
        b"keymaps 0\nctrlr altgr shift keycode 1 = Home\nstring Help = \"a\\\"\\\\\\177 ~\"\ncompose 'a' U+0101 to '~'",
        b"keymaps 0,131\nshift altgr ctrlr keycode 1 = Find\nstring Help = \"a\\042\\134\\177 ~\"\ncompose U+0061 U+0101 to U+007E\n",
    ),
];

// The dump; none if there is no dump, or memory ran out.
fn dump_of(alloc: Global, tables: &KeyTables) -> Option<Bytes> {
    if !dumpable(tables) {
        return None;
    }
    match dump(alloc, tables) {
        Ok(text) => Some(text),
        Err(NoMemory) => None,
    }
}

fn has_dump(alloc: Global, tables: &KeyTables, wanted: &[u8]) -> bool {
    match dump_of(alloc, tables) {
        Some(text) => text.as_slice() == wanted,
        None => false,
    }
}

fn is_dumped(alloc: Global, text: &[u8], wanted: &[u8]) -> bool {
    match tables_of(alloc, text) {
        Ok(tables) => has_dump(alloc, &tables, wanted),
        Err(_error) => false,
    }
}

#[test]
fn tables_have_their_dumps(rt: HostRuntime) {
    for &(text, wanted) in DUMPS {
        check(&rt, is_dumped(rt.alloc(), text, wanted), text);
    }
}

// Keymap texts whose tables have the same listing as those read from their dump.
const AGAIN: &[&[u8]] = &[
    b"keymaps 0-2,4-5,8,12\nalt_is_meta\nkeycode 30 = a\nkeycode 48 = b\nkeycode 56 = Alt\n\
            keycode 65 = F7\nalt keycode 65 = Console_7\nstrings as usual\ncompose as usual",
    b"keymaps 0-255\nkeycode 1 = a\nkeycode 255 = +U+0100\nshift ctrll keycode 9 = Compose",
];

fn listing_of(alloc: Global, tables: &KeyTables) -> Option<Bytes> {
    match tables.listing(alloc) {
        Ok(listing) => Some(listing),
        Err(NoMemory) => None,
    }
}

fn is_again(alloc: Global, tables: &KeyTables) -> bool {
    match (dump_of(alloc, tables), listing_of(alloc, tables)) {
        (Some(text), Some(listing)) => is_listed(alloc, text.as_slice(), listing.as_slice()),
        _ => false,
    }
}

fn is_read_again(alloc: Global, text: &[u8]) -> bool {
    match tables_of(alloc, text) {
        Ok(tables) => is_again(alloc, &tables),
        Err(_error) => false,
    }
}

fn has_dump_of(alloc: Global, declared: &[u8], is: bool) -> Result<bool, NoMemory> {
    Ok(dumpable(&KeyTables::empty(alloc, declared)?) == is)
}

#[test]
fn dumps_are_read_again(rt: HostRuntime) {
    for text in AGAIN {
        check(&rt, is_read_again(rt.alloc(), text), text);
    }
    check_made(&rt, has_dump_of(rt.alloc(), &[], false), "no table");
    check_made(&rt, has_dump_of(rt.alloc(), &[255], true), "the last table");
}
