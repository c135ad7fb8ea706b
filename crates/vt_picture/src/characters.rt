//! The characters of cells as XML writes them.
ghost use Rattle.std.specs.Prelude.{◌≡◌, ◌++◌, encode_utf8, OnOk};
ghost use Rattle.vt_picture.specs.Characters.{cell_text, markup_of, is_text};

use std::alloc::Global;
use vt_base::{Bytes, NoMemory};
use vt_cells::{Cell, HALF};

/// Adds the cell's character, or no bytes for a right half.
#[tactic(auto, unfolding(crate::specs::Characters::cell_text))]
pub(crate) fn add_cell(alloc: Global, text: &mut Bytes, cell: Cell) -> Result<(), NoMemory>
    ensures { OnOk result (text.new.bytes ≡ text.old.bytes ++ cell_text cell) }
{
    if cell.code == HALF {
        return Ok(());
    }
    add_escaped(alloc, text, cell.code)
}

#[tactic(auto, unfolding(crate::specs::Characters::markup_of))]
fn add_escaped(alloc: Global, text: &mut Bytes, code: u32) -> Result<(), NoMemory>
    ensures { OnOk result (text.new.bytes ≡ text.old.bytes ++ markup_of code) }
{
    match char::from_u32(code) {
        Some('&') => text.add(alloc, b"&amp;"),
        Some('<') => text.add(alloc, b"&lt;"),
        Some('>') => text.add(alloc, b"&gt;"),
        Some(c) if is_text(c) => add_char(alloc, text, c),
        _ => add_char(alloc, text, '\u{FFFD}'),
    }
}

fn add_char(alloc: Global, text: &mut Bytes, c: char) -> Result<(), NoMemory>
    ensures { OnOk result (text.new.bytes ≡ text.old.bytes ++ encode_utf8 c) }
{
    let mut buffer = [0; 4];
    text.add(alloc, c.encode_utf8(&mut buffer).as_bytes())
}

fn is_text(c: char) -> bool
    ensures { result ≡ is_text c }
{
    matches!(c, ' '..='~' | '\u{A0}'..='\u{FFFD}' | '\u{10000}'..)
}
