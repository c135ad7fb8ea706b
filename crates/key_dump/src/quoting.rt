//! The row of a string, between quotes.
ghost use Rattle.std.specs.Prelude.{◌≡◌, ◌++◌, [], ◌∷◌, OnOk};
ghost use Rattle.std.specs.List.{flat_map};
ghost use Rattle.key_dump.specs.Dump.{escape_of, is_plain, octal_escape, quoted_text, row_text, string_rows, string_words};

use key_syms::{Action, kind, name_of};
use std::alloc::Global;
use vt_base::{Bytes, NoMemory};

/// Adds the row of the string of a function key, if it isn't empty.
pub(crate) fn add_string(
    alloc: Global,
    text: &mut Bytes,
    i: u8,
    string: &[u8],
) -> Result<(), NoMemory>
    ensures { OnOk result (text.new.bytes
        ≡ text.old.bytes ++ flat_map row_text (string_rows i string.now)) }
{
    if string.is_empty() {
        return Ok(());
    }
    add_string_row(alloc, text, i, string)
}

fn add_string_row(alloc: Global, text: &mut Bytes, i: u8, string: &[u8]) -> Result<(), NoMemory>
    ensures { OnOk result (text.new.bytes
        ≡ text.old.bytes ++ row_text (string_words i string.now)) }
{
    let key = Action {
        kind: kind::FUNCTION,
        value: u16::from(i),
    };
    text.add(alloc, b"string ")?;
    text.add(alloc, name_of(key).as_bytes())?;
    text.add(alloc, b" = \"")?;
    add_escaped(alloc, text, string)?;
    text.add(alloc, b"\"\n")?;
    Ok(())
}

// Adds a text in the form that it has between quotes.
fn add_escaped(alloc: Global, text: &mut Bytes, string: &[u8]) -> Result<(), NoMemory>
    ensures { OnOk result (text.new.bytes ≡ text.old.bytes ++ flat_map escape_of string.now) }
{
    for b in string {
        add_byte(alloc, text, *b)?;
    }
    Ok(())
}

fn add_byte(alloc: Global, text: &mut Bytes, b: u8) -> Result<(), NoMemory>
    ensures { OnOk result (text.new.bytes ≡ text.old.bytes ++ escape_of b) }
{
    if is_plain(b) {
        return text.add(alloc, &[b]);
    }
    text.add(
        alloc,
        &[b'\\', b'0' + b / 64, b'0' + b / 8 % 8, b'0' + b % 8],
    )
}

fn is_plain(b: u8) -> bool
    ensures { result ≡ is_plain b }
{
    0x20 <= b && b <= 0x7E && b != b'"' && b != b'\\'
}
