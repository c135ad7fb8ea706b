//! Keymap texts compiled to their tables, and whether these have a listing.
use key_compile::compile;
use key_tables::KeyTables;
use key_text::{Includes, KeyError, Line, parse};
use std::alloc::Global;
use vt_base::NoMemory;

fn lines_of(alloc: Global, text: &[u8]) -> Result<Vec<Line>, KeyError> {
    let includes = Includes::none(alloc);
    parse(alloc, text, &includes)
}

/// The tables of a keymap text that includes no other.
pub(crate) fn tables_of(alloc: Global, text: &[u8]) -> Result<KeyTables, KeyError> {
    let lines = lines_of(alloc, text)?;
    compile(alloc, lines.as_slice())
}

fn has_listing(alloc: Global, tables: &KeyTables, wanted: &[u8]) -> bool {
    match tables.listing(alloc) {
        Ok(listing) => listing.as_slice() == wanted,
        Err(NoMemory) => false,
    }
}

/// Whether the tables of the text have this listing.
pub(crate) fn is_listed(alloc: Global, text: &[u8], wanted: &[u8]) -> bool {
    match tables_of(alloc, text) {
        Ok(tables) => has_listing(alloc, &tables, wanted),
        Err(_error) => false,
    }
}
