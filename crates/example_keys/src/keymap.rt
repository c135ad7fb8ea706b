//! A keymap text made into tables.

use key_compile::compile;
use key_tables::KeyTables;
use key_text::{Includes, KeyError, KeyFault, parse};
use std::alloc::Global;
use vt_base::NoMemory;

/// The result of a keymap text.
#[derive(Drop)]
pub(crate) enum Keymap {
    Tables(KeyTables),
    /// The first fault, with its kind, line and column.
    Refused(KeyFault),
}

/// The tables of the text, or its first fault. There are no texts to include.
pub(crate) fn compiled(alloc: Global, text: &[u8]) -> Result<Keymap, NoMemory> {
    match tables_of(alloc, text) {
        Ok(tables) => Ok(Keymap::Tables(tables)),
        Err(KeyError::Fault(fault)) => Ok(Keymap::Refused(fault)),
        Err(KeyError::NoMemory) => Err(NoMemory),
    }
}

fn tables_of(alloc: Global, text: &[u8]) -> Result<KeyTables, KeyError> {
    let includes = Includes::none(alloc);
    let lines = parse(alloc, text, &includes)?;
    compile(alloc, lines.as_slice())
}
