ghost use Rattle.std.specs.Prelude.{◌≡◌, ◌≤◌, ◌∷◌, ◌++◌, OnOk};
ghost use Rattle.vt_journal.specs.Text.{blank_before_each};
ghost use Rattle.vt_tool.specs.Commands.Typing.{is_attention, line_words, out_words, typed_line, typed_text};

use crate::commands::typing::typist::Typist;
use key_machine::{KeyOut, mode};
use key_tables::KeyTables;
use std::alloc::Global;
use vt_base::{Bytes, NoMemory};
use vt_journal::{add, add_hex, add_next};

/// Adds a line for each scan byte, typed in this keyboard mode.
pub(crate) fn add_typed(
    alloc: Global,
    text: &mut Bytes,
    tables: &KeyTables,
    mode: u8,
    keys: &[u8],
) -> Result<(), NoMemory>
    requires { mode ≤ 4 }
    ensures { OnOk result (text.new.bytes
        ≡ text.old.bytes ++ typed_text tables.now mode keys.now) }
{
    let mut typist = Typist::start(mode);
    for b in keys {
        let out = typist.take(tables, *b);
        add_line(alloc, text, mode, *b, &out)?;
    }
    Ok(())
}

// The line of a scan byte.
fn add_line(alloc: Global, text: &mut Bytes, mode: u8, b: u8, out: &KeyOut) -> Result<(), NoMemory>
    ensures { OnOk result (text.new.bytes ≡ text.old.bytes ++ typed_line mode b out.now) }
{
    add_hex(alloc, text, &[b])?;
    if mode == mode::RAW && !is_attention(out) {
        add(alloc, text, b" bytes ")?;
        add_hex(alloc, text, &[b])?;
    } else {
        add_out(alloc, text, out)?;
    }
    add(alloc, text, b"\n")
}

// The words for the output of a key, each after a blank.
fn add_out(alloc: Global, text: &mut Bytes, out: &KeyOut) -> Result<(), NoMemory>
    ensures { OnOk result (text.new.bytes ≡ text.old.bytes ++ blank_before_each (out_words out.now)) }
{
    match out {
        KeyOut::Bytes(bytes) => {
            add(alloc, text, b" bytes ")?;
            add_hex(alloc, text, bytes.as_slice())
        }
        KeyOut::Switch(n) => {
            add(alloc, text, b" switch")?;
            add_next(alloc, text, u64::from(*n))
        }
        KeyOut::Last => add(alloc, text, b" last"),
        KeyOut::Next => add(alloc, text, b" next"),
        KeyOut::Prev => add(alloc, text, b" prev"),
        KeyOut::Spawn => add(alloc, text, b" spawn"),
        KeyOut::Attention => add(alloc, text, b" attention"),
        KeyOut::Nothing => add(alloc, text, b" -"),
    }
}

fn is_attention(out: &KeyOut) -> bool
    ensures { result ≡ is_attention out.now }
{
    matches!(out, KeyOut::Attention)
}
