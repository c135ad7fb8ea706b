//! Compiles a keymap text with the texts that it may include.
ghost use Rattle.std.specs.Prelude.{◌≡◌, [], OnOk};
ghost use Rattle.keys_c.specs.Keymaps.{Compiles, with_texts};

use crate::vt_text::VtText;
use key_compile::compile;
use key_tables::KeyTables;
use key_text::{Includes, KeyError, parse_within};
use std::alloc::Global;
use vt_base::NoMemory;

/// The most bytes of the included texts of a keymap together: 4 MiB.
const MOST_INCLUDED: usize = 4_194_304;

/// The tables of a keymap, or its first fault.
pub(crate) fn tables_in(alloc: Global, text: &[u8], texts: &[VtText]) -> Result<KeyTables, KeyError>
    ensures { Compiles texts.now text.now result }
{
    let mut includes = Includes::none(alloc);
    add_texts(alloc, texts, &mut includes)?;
    let lines = parse_within(alloc, text, &includes, MOST_INCLUDED)?;
    compile(alloc, lines.as_slice())
}

// Adds the texts. Of two texts with the same name the first counts.
fn add_texts(alloc: Global, texts: &[VtText], includes: &mut Includes) -> Result<(), NoMemory>
    ensures { OnOk result (includes.new ≡ with_texts includes.old texts.now) }
{
    for t in texts {
        includes.add(alloc, t.name, t.text)?;
    }
    Ok(())
}
