//! The text of a run, word by word.
ghost use Rattle.std.specs.Prelude.{◌≡◌, ◌+◌, ◌-◌, ◌<◌, ◌≤◌, ◌++◌, drop, take, OnOk};
ghost use Rattle.std.specs.List.{flat_map};
ghost use Rattle.vt_grid.specs.Grid.{row_at};
ghost use Rattle.vt_picture.specs.Characters.{cell_text};
ghost use Rattle.vt_picture.specs.Picture.{edges, letters_tag, letters_text, word_tag, word_text, words_text};
ghost use Rattle.vt_picture.specs.Runs.{words};

use crate::adding::{add_filled_with, add_numbered};
use crate::characters::add_cell;
use crate::colours::{classes, foreground};
use crate::rows::{CELL_HEIGHT, CELL_WIDTH};
use crate::runs::{is_blank, word_length};
use std::alloc::Global;
use vt_base::{Bytes, NoMemory};
use vt_grid::Grid;
use vt_screen::ScreenState;

/// How far below the top of a cell its character stands.
const BASE_LINE: u16 = 11;

/// Adds the text of so many cells.
pub(crate) fn add_letters(
    alloc: Global,
    text: &mut Bytes,
    state: &ScreenState,
    g: &Grid,
    y: u8,
    x: u8,
    count: u8,
    attr: u8,
) -> Result<(), NoMemory>
    requires row { y < g.now.rows }
    requires within { x + count ≤ g.now.cols }
    ensures { OnOk result
        (text.new.bytes
        ≡ text.old.bytes ++ letters_text state.now y x (take count (drop x (row_at g.now y))) attr) }
{
    g.stays_full();
    add_letters_tag(alloc, text, state, y, x, attr)?;
    add_words(alloc, text, g, y, x, x + count)?;
    text.add(alloc, b"</text>\n")?;
    Ok(())
}

#[tactic(auto, unfolding(crate::specs::Picture::letters_tag))]
fn add_letters_tag(
    alloc: Global,
    text: &mut Bytes,
    state: &ScreenState,
    y: u8,
    x: u8,
    attr: u8,
) -> Result<(), NoMemory>
    ensures { OnOk result (text.new.bytes ≡ text.old.bytes ++ letters_tag state.now y x attr) }
{
    text.add(alloc, b"<text")?;
    add_numbered(alloc, text, b"x", CELL_WIDTH * u16::from(x))?;
    add_numbered(alloc, text, b"y", CELL_HEIGHT * u16::from(y) + BASE_LINE)?;
    add_filled_with(alloc, text, foreground(state, attr))?;
    text.add(alloc, classes(attr))?;
    text.add(alloc, b">")
}

// Adds the words of the cells from column `x` up to column `end`.
fn add_words(
    alloc: Global,
    text: &mut Bytes,
    g: &Grid,
    y: u8,
    x: u8,
    end: u8,
) -> Result<(), NoMemory>
    requires row { y < g.now.rows }
    requires order { x ≤ end }
    requires within { end ≤ g.now.cols }
    ensures { OnOk result
        (text.new.bytes
        ≡ text.old.bytes ++ words_text x (words (drop x (take end (row_at g.now y))))) }
{
    g.stays_full();
    let mut next = x;
    while next < end {
        let count = word_length(g, y, next, end);
        add_word(alloc, text, g, y, next, count)?;
        next += count;
    }
    Ok(())
}

#[tactic(auto, using(crate::proofs::Texts::within_rows), unfolding(crate::specs::Picture::word_text))]
fn add_word(
    alloc: Global,
    text: &mut Bytes,
    g: &Grid,
    y: u8,
    x: u8,
    count: u8,
) -> Result<(), NoMemory>
    requires row { y < g.now.rows }
    requires some { 0 < count }
    requires within { x + count ≤ g.now.cols }
    ensures { OnOk result
        (text.new.bytes ≡ text.old.bytes ++ word_text x (take count (drop x (row_at g.now y)))) }
{
    g.stays_full();
    if is_blank(g.at(y, x)) {
        return add_cells(alloc, text, g, y, x, count);
    }
    add_word_tag(alloc, text, x, count)?;
    add_cells(alloc, text, g, y, x, count)?;
    text.add(alloc, b"</tspan>")
}

#[tactic(auto, unfolding(crate::specs::Picture::word_tag))]
fn add_word_tag(alloc: Global, text: &mut Bytes, x: u8, count: u8) -> Result<(), NoMemory>
    requires some { 0 < count }
    requires within { x + count ≤ 255 }
    ensures { OnOk result (text.new.bytes ≡ text.old.bytes ++ word_tag x count) }
{
    text.add(alloc, b"<tspan x='")?;
    text.add_decimal(alloc, u64::from(CELL_WIDTH * u16::from(x)))?;
    add_edges(alloc, text, x + 1, x + count)?;
    text.add(alloc, b"'>")
}

// Adds the left edges of the cells from column `x` up to column `end`.
fn add_edges(alloc: Global, text: &mut Bytes, x: u8, end: u8) -> Result<(), NoMemory>
    requires order { x ≤ end }
    ensures { OnOk result (text.new.bytes ≡ text.old.bytes ++ edges x (end - x)) }
{
    for column in x..end {
        text.add(alloc, b" ")?;
        text.add_decimal(alloc, u64::from(CELL_WIDTH * u16::from(column)))?;
    }
    Ok(())
}

fn add_cells(
    alloc: Global,
    text: &mut Bytes,
    g: &Grid,
    y: u8,
    x: u8,
    count: u8,
) -> Result<(), NoMemory>
    requires row { y < g.now.rows }
    requires within { x + count ≤ g.now.cols }
    ensures { OnOk result
        (text.new.bytes
        ≡ text.old.bytes ++ flat_map cell_text (take count (drop x (row_at g.now y)))) }
{
    g.stays_full();
    for i in 0..count {
        add_cell(alloc, text, g.at(y, x + i))?;
    }
    Ok(())
}
