//! The keymap of a field.
ghost use Rattle.std.specs.Prelude.{◌≡◌};
ghost use Rattle.key_compile.specs.Compiled.{AreTablesOf};
ghost use Rattle.table_fields.specs.Checked.{GivesBy};
ghost use Rattle.table_fields.specs.Fields.{keymap_fault, keymap_of};

use crate::fault::{TableError, refused};
use crate::fault_code::KEYMAP;
use key_compile::compile;
use key_tables::KeyTables;
use key_text::{Includes, KeyError, KeyFault, parse};
use std::alloc::Global;

/// The tables of a keymap that may include these texts. Fault 24 at the line and column of its first fault.
pub fn keymap(alloc: Global, texts: &Includes, text: &str) -> Result<KeyTables, TableError>
    ensures { GivesBy (λ tables lines. AreTablesOf lines tables) result
        (keymap_of texts.now text.now) }
{
    let lines = match parse(alloc, text.as_bytes(), texts) {
        Ok(lines) => lines,
        Err(KeyError::Fault(fault)) => return Err(keymap_refused(fault)),
        Err(KeyError::NoMemory) => return Err(TableError::NoMemory),
    };
    match compile(alloc, lines.as_slice()) {
        Ok(tables) => Ok(tables),
        Err(KeyError::Fault(fault)) => Err(keymap_refused(fault)),
        Err(KeyError::NoMemory) => Err(TableError::NoMemory),
    }
}

fn keymap_refused(fault: KeyFault) -> TableError
    ensures { result ≡ TableError.Fault (keymap_fault fault) }
{
    refused(KEYMAP, fault.line, fault.column)
}
