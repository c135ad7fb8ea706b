//! The rows of the screen, run by run.
ghost use Rattle.std.specs.Prelude.{◌≡◌, ◌+◌, ◌<◌, ◌≤◌, ◌++◌, drop, take, OnOk};
ghost use Rattle.vt_grid.specs.Grid.{row_at};
ghost use Rattle.vt_picture.specs.Picture.{rows_text, run_text, runs_text};
ghost use Rattle.vt_picture.specs.Runs.{runs};

use crate::adding::add_rectangle;
use crate::colours::{attribute, background};
use crate::letters::add_letters;
use crate::runs::run_length;
use std::alloc::Global;
use vt_base::{Bytes, NoMemory};
use vt_grid::Grid;
use vt_screen::ScreenState;

/// The width of a cell.
pub(crate) const CELL_WIDTH: u16 = 8;

/// The height of a cell.
pub(crate) const CELL_HEIGHT: u16 = 15;

/// Adds the rows from top to bottom.
#[tactic(auto, using(crate::proofs::Texts::rows_more))]
pub(crate) fn add_rows(
    alloc: Global,
    text: &mut Bytes,
    state: &ScreenState,
    g: &Grid,
) -> Result<(), NoMemory>
    ensures { OnOk result (text.new.bytes ≡ text.old.bytes ++ rows_text state.now 0 g.now.cells) }
{
    for y in 0..g.size().rows {
        add_row(alloc, text, state, g, y)?;
    }
    Ok(())
}

// Adds the runs of a row from left to right.
#[tactic(auto, using(crate::proofs::Texts::run_by_run))]
fn add_row(
    alloc: Global,
    text: &mut Bytes,
    state: &ScreenState,
    g: &Grid,
    y: u8,
) -> Result<(), NoMemory>
    requires { y < g.now.rows }
    ensures { OnOk result
        (text.new.bytes ≡ text.old.bytes ++ runs_text state.now y 0 (runs (row_at g.now y))) }
{
    let cols = g.size().cols;
    let mut x = 0;
    while x < cols {
        let count = run_length(g, y, x);
        add_run(alloc, text, state, g, y, x, count)?;
        x += count;
    }
    Ok(())
}

// Adds the background and the text of so many cells.
#[tactic(auto, using(crate::proofs::Texts::within_rows), unfolding(crate::specs::Picture::run_text))]
fn add_run(
    alloc: Global,
    text: &mut Bytes,
    state: &ScreenState,
    g: &Grid,
    y: u8,
    x: u8,
    count: u8,
) -> Result<(), NoMemory>
    requires row { y < g.now.rows }
    requires some { 0 < count }
    requires within { x + count ≤ g.now.cols }
    ensures { OnOk result
        (text.new.bytes
        ≡ text.old.bytes ++ run_text state.now y x (take count (drop x (row_at g.now y)))) }
{
    g.stays_full();
    let attr = attribute(state, g.at(y, x));
    add_rectangle(
        alloc,
        text,
        CELL_WIDTH * u16::from(x),
        CELL_HEIGHT * u16::from(y),
        CELL_WIDTH * u16::from(count),
        CELL_HEIGHT,
        background(state, attr),
    )?;
    add_letters(alloc, text, state, g, y, x, count, attr)
}
