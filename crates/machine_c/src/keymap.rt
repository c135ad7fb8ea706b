//! Compiles a keymap text that includes nothing.
ghost use Rattle.machine_c.specs.Keymaps.{Compiles};

use key_compile::compile;
use key_tables::KeyTables;
use key_text::{Includes, KeyError, parse};
use std::alloc::Global;

/// The tables of a keymap, or its first fault.
pub(crate) fn tables_in(alloc: Global, text: &[u8]) -> Result<KeyTables, KeyError>
    ensures { Compiles text.now result }
{
    let includes = Includes::none(alloc);
    let lines = parse(alloc, text, &includes)?;
    compile(alloc, lines.as_slice())
}
