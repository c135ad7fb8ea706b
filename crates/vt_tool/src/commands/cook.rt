//! `cook`: the lines and signals that the input types, the bytes that are left, and the echo.
ghost use Rattle.std.specs.Prelude.{◌≡◌, ◌++◌, IfOk, OnOk};
ghost use Rattle.std.specs.List.{flat_map};
ghost use Rattle.cooked.specs.Given.{items_of};
ghost use Rattle.vt_tool.specs.Commands.Cook.{GivesCooked, bytes_line, cook_text, item_line};

use crate::answer::Answer;
use crate::commands::lines::add_number;
use cooked::{Cooked, EchoBytes, Given, Termios, one_more};
use std::alloc::Global;
use vt_base::{Bytes, NoMemory};
use vt_journal::{add, add_hex};

/// A line for each item that the input types, one for the bytes that are left, and one for the echo.
pub(crate) fn answer(alloc: Global, input: &[u8]) -> Result<Answer, NoMemory>
    ensures { IfOk result (GivesCooked input.now) }
{
    Ok(Answer::fine(cook(alloc, input)?))
}

fn cook(alloc: Global, typed: &[u8]) -> Result<Bytes, NoMemory>
    ensures { IfOk result (λ text. text.bytes ≡ cook_text typed.now) }
{
    one_more();
    let mut cooked = Cooked::start(alloc, Termios::usual())?;
    let mut text = Bytes::new(alloc);
    let mut echo = Bytes::new(alloc);
    let mut echoed = EchoBytes::new();
    for b in typed {
        echoed.clear();
        let given = cooked.push(*b, &mut echoed);
        add_given(alloc, &mut text, given, cooked.line())?;
        add(alloc, &mut echo, echoed.as_slice())?;
    }
    add_bytes(alloc, &mut text, b"rest", cooked.rest())?;
    add_bytes(alloc, &mut text, b"echo", echo.as_slice())?;
    Ok(text)
}

// Adds the line of the item that a byte ends, if it ends one.
fn add_given(alloc: Global, text: &mut Bytes, given: Given, line: &[u8]) -> Result<(), NoMemory>
    ensures { OnOk result (text.new.bytes
        ≡ text.old.bytes ++ flat_map item_line (items_of given line.now)) }
{
    match given {
        Given::Nothing => Ok(()),
        Given::Line => add_bytes(alloc, text, b"line", line),
        Given::Byte(b) => add_bytes(alloc, text, b"byte", &[b]),
        Given::Sig(signal) => add_signal(alloc, text, signal.get()),
    }
}

fn add_signal(alloc: Global, text: &mut Bytes, number: u16) -> Result<(), NoMemory>
    ensures { OnOk result (text.new.bytes
        ≡ text.old.bytes ++ item_line (Rattle.cooked.specs.Given.signal number)) }
{
    add_number(alloc, text, b"signal", u64::from(number))
}

// Adds a line of a name and bytes.
fn add_bytes(alloc: Global, text: &mut Bytes, name: &[u8], bytes: &[u8]) -> Result<(), NoMemory>
    ensures { OnOk result (text.new.bytes ≡ text.old.bytes ++ bytes_line name.now bytes.now) }
{
    add(alloc, text, name)?;
    add(alloc, text, b" ")?;
    add_hex(alloc, text, bytes)?;
    add(alloc, text, b"\n")
}
