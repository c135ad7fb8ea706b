//! The lines of ears.
ghost use Rattle.std.specs.Prelude.{◌≡◌, ◌<◌, ◌∷◌, ◌++◌, decimal, IfOk, OnOk};
ghost use Rattle.vt_dump.specs.Rows.{row_text};
ghost use Rattle.vt_grid.specs.Grid.{row_at};
ghost use Rattle.vt_review.specs.Lines.{ear_line, ear_lines, kind_word, make_told, row_end, words_of};

use crate::{Ear, Listener, Notice};
use itoa::Buffer;
use std::alloc::Global;
use vt_base::{Bytes, ConsoleNo, NoMemory};
use vt_dump::add_row;
use vt_grid::Grid;
use vt_journal::{add, add_next};

/// The kind of a notice that a row is new.
pub(crate) const ROW: u8 = 2;

/// Room for the words of a row: ` 4294967295 row 63`.
const WORDS_BYTES: usize = 18;

/// Asks each ear whether it hears the notice of entry `e`, and adds the line of each that does. The line has
/// these bytes after the console's number.
pub(crate) fn add_lines<F: Listener>(
    alloc: Global,
    text: &mut Bytes,
    ears: &[Ear<F>],
    e: u32,
    kind: u8,
    console: ConsoleNo,
    end: &[u8],
) -> Result<(), NoMemory>
    requires { kind < 3 }
    ensures { OnOk result (text.new.bytes
        ≡ text.old.bytes ++ ear_lines 0 e ears.now (make_told kind console end.now)) }
{
    for a in 0..ears.len() {
        if ears[a].ask(Notice { kind, console }) {
            add_line(alloc, text, a, e, kind, console, end)?;
        }
    }
    Ok(())
}

// Adds the line of the ear at place `a`.
fn add_line(
    alloc: Global,
    text: &mut Bytes,
    a: usize,
    e: u32,
    kind: u8,
    console: ConsoleNo,
    end: &[u8],
) -> Result<(), NoMemory>
    ensures { OnOk result (text.new.bytes
        ≡ text.old.bytes ++ ear_line a e (make_told kind console end.now)) }
{
    add_place(alloc, text, a)?;
    add_words(alloc, text, e, kind, console)?;
    add(alloc, text, end)?;
    Ok(())
}

/// Adds the line of the ear at place `a` for row `y` of a screen, if these are its words before the row's number.
pub(crate) fn add_row_line(
    alloc: Global,
    text: &mut Bytes,
    a: usize,
    words: &[u8],
    screen: &Grid,
    y: u8,
) -> Result<(), NoMemory>
    requires { y < screen.now.rows }
    ensures { OnOk result (text.new.bytes
        ≡ text.old.bytes ++ decimal a ++ words.now ++ row_end y (row_text (row_at screen.now y))) }
{
    add_place(alloc, text, a)?;
    add(alloc, text, words)?;
    add_next(alloc, text, u64::from(y))?;
    add(alloc, text, b" ")?;
    add_row(alloc, text, screen, y)?;
    Ok(())
}

/// The words of a line for a row of the console between the ear's place and the row's number.
pub(crate) fn row_words(alloc: Global, e: u32, console: ConsoleNo) -> Result<Bytes, NoMemory>
    ensures { IfOk result (λ words. words.bytes ≡ words_of e ROW console) }
{
    let mut words = Bytes::with_room(alloc, WORDS_BYTES)?;
    add_words(alloc, &mut words, e, ROW, console)?;
    Ok(words)
}

// Adds an ear's place.
fn add_place(alloc: Global, text: &mut Bytes, a: usize) -> Result<(), NoMemory>
    ensures { OnOk result (text.new.bytes ≡ text.old.bytes ++ decimal a) }
{
    let mut buffer = Buffer::new();
    add(alloc, text, buffer.format(a).as_bytes())
}

// Adds the entry, the word of the kind and the console, with a blank before each.
fn add_words(
    alloc: Global,
    text: &mut Bytes,
    e: u32,
    kind: u8,
    console: ConsoleNo,
) -> Result<(), NoMemory>
    ensures { OnOk result (text.new.bytes ≡ text.old.bytes ++ words_of e kind console) }
{
    add_next(alloc, text, u64::from(e))?;
    add_kind(alloc, text, kind)?;
    add_next(alloc, text, u64::from(console.get()))?;
    Ok(())
}

// Adds a blank and the word of the kind.
fn add_kind(alloc: Global, text: &mut Bytes, kind: u8) -> Result<(), NoMemory>
    ensures { OnOk result (text.new.bytes ≡ text.old.bytes ++ 0x20 ∷ kind_word kind) }
{
    let word: &[u8] = match kind {
        0 => b" display",
        1 => b" bell",
        _ => b" row",
    };
    add(alloc, text, word)
}
