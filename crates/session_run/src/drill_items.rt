//! The items of a drill's scripts.
ghost use Rattle.std.specs.Prelude.{◌≡◌, ◌<◌, ◌≤◌, ℕ, ◌∷◌, ◌++◌, decimal, IfOk, OnOk};
ghost use Rattle.session_run.specs.Drill.{wait_item, colour_item, each, item, item_of, letter, cursor_item, print_item, activate_item};
ghost use Rattle.vt_events.specs.Kinds.{text};
ghost use Rattle.vt_events.specs.declared.event.Event.TheVariants as event;

use crate::drill_draws::Draws;
use itoa::Buffer;
use std::alloc::Global;
use vt_base::{Bytes, NoMemory};
use vt_events::Event;
use vt_journal::add;

/// How many consoles a drill has.
const DRILL_CONSOLES: u64 = 8;

/// An item, of one of eight kinds.
pub(crate) fn item(alloc: Global, draws: &mut Draws) -> Result<Event, NoMemory>
    ensures value { IfOk result (λ e. (p : ℕ) → e ≡ (item p draws.old).0) }
    ensures next { OnOk result ((p : ℕ) → draws.new ≡ (item p draws.old).1) }
{
    let kind = draws.below(8);
    item_of(alloc, draws, kind)
}

// An item of the kind.
fn item_of(alloc: Global, draws: &mut Draws, kind: u64) -> Result<Event, NoMemory>
    ensures value { IfOk result (λ e. e ≡ (item_of kind draws.old).0) }
    ensures next { OnOk result (draws.new ≡ (item_of kind draws.old).1) }
{
    match kind {
        0 => print_item(alloc, draws),
        1 => cursor_item(alloc, draws),
        2 => Ok(Event::Activate(0, console(draws))),
        3 => Ok(Event::ReadIn(0, 64)),
        4 => Ok(Event::WaitActive(0, console(draws))),
        5 => colour_item(alloc, draws),
        6 => Ok(Event::RelDisp(0, 1)),
        _ => write(alloc, b"\x1b[6n"),
    }
}

// The number of a console.
fn console(draws: &mut Draws) -> u16
    ensures switch { event.Activate 0 result ≡ (activate_item draws.old).0 }
    ensures wait { event.WaitActive 0 result ≡ (wait_item draws.old).0 }
    ensures next { draws.new ≡ (activate_item draws.old).1 }
{
    1 + draws.below(DRILL_CONSOLES) as u16
}

// A write of 1 to 32 printed bytes.
fn print_item(alloc: Global, draws: &mut Draws) -> Result<Event, NoMemory>
    ensures value { IfOk result (λ e. e ≡ (print_item draws.old).0) }
    ensures next { OnOk result (draws.new ≡ (print_item draws.old).1) }
{
    let n = 1 + draws.below(32);
    let letters = letters(alloc, draws, n as usize)?;
    Ok(Event::Write(0, letters))
}

// So many printed bytes.
fn letters(alloc: Global, draws: &mut Draws, n: usize) -> Result<Bytes, NoMemory>
    ensures value { IfOk result (λ letters. letters ≡ text (each letter n 0 draws.old).0) }
    ensures next { OnOk result (draws.new ≡ (each letter n 0 draws.old).1) }
{
    let mut letters = Bytes::with_room(alloc, n)?;
    for _i in 0..n {
        letters.push(32 + draws.below(95) as u8);
    }
    Ok(letters)
}

// The cursor to a row and a column.
fn cursor_item(alloc: Global, draws: &mut Draws) -> Result<Event, NoMemory>
    ensures value { IfOk result (λ e. e ≡ (cursor_item draws.old).0) }
    ensures next { OnOk result (draws.new ≡ (cursor_item draws.old).1) }
{
    let row = 1 + draws.below(25);
    let column = 1 + draws.below(80);
    let mut text = Bytes::from_slice(alloc, b"\x1b[")?;
    add_decimal(alloc, &mut text, row)?;
    add(alloc, &mut text, b";")?;
    add_decimal(alloc, &mut text, column)?;
    add(alloc, &mut text, b"H")?;
    write(alloc, text.as_slice())
}

// A colour of text.
fn colour_item(alloc: Global, draws: &mut Draws) -> Result<Event, NoMemory>
    ensures value { IfOk result (λ e. e ≡ (colour_item draws.old).0) }
    ensures next { OnOk result (draws.new ≡ (colour_item draws.old).1) }
{
    let colour = 30 + draws.below(8);
    let mut text = Bytes::from_slice(alloc, b"\x1b[")?;
    add_decimal(alloc, &mut text, colour)?;
    add(alloc, &mut text, b"m")?;
    write(alloc, text.as_slice())
}

// A write of the bytes.
fn write(alloc: Global, b: &[u8]) -> Result<Event, NoMemory>
    ensures { IfOk result (λ e. e ≡ event.Write 0 (text b.now)) }
{
    Ok(Event::Write(0, Bytes::from_slice(alloc, b)?))
}

// Adds the number in digits.
fn add_decimal(alloc: Global, text: &mut Bytes, n: u64) -> Result<(), NoMemory>
    ensures { OnOk result (text.new.bytes ≡ text.old.bytes ++ decimal n) }
{
    let mut buffer = Buffer::new();
    add(alloc, text, buffer.format(n).as_bytes())
}
