//! Pieces of texts.
use std::alloc::Global;
use vt_base::{Bytes, CallerNo, NoMemory};

/// The version of the journal's words.
const VERSION: u8 = 2;

/// Adds the bytes.
pub(crate) fn add(alloc: Global, text: &mut Bytes, bytes: &[u8]) -> Result<(), NoMemory> {
    vt_journal::add(alloc, text, bytes)
}

/// Adds the number in decimal.
pub(crate) fn add_number(alloc: Global, text: &mut Bytes, n: u64) -> Result<(), NoMemory> {
    vt_journal::add_number(alloc, text, n)
}

/// Adds the caller as a journal has it.
pub(crate) fn add_caller(alloc: Global, text: &mut Bytes, p: CallerNo) -> Result<(), NoMemory> {
    vt_journal::add_caller(alloc, text, p, VERSION)
}

/// Adds the bytes as a part of a string of JSON.
pub(crate) fn add_escaped(alloc: Global, text: &mut Bytes, bytes: &[u8]) -> Result<(), NoMemory> {
    for b in bytes {
        if *b == b'"' || *b == b'\\' {
            add(alloc, text, b"\\")?;
        }
        add(alloc, text, &[*b])?;
    }
    Ok(())
}
