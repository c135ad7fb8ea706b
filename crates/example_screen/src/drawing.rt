//! A text drawn on a screen, line by line.
ghost use Rattle.std.specs.Prelude.{◌≡◌, ◌<◌, ◌≤◌, length, OnOk};
ghost use Rattle.vt_screen.specs.Run.{after};

use crate::telling::Teller;
use std::alloc::Global;
use vt_base::{Bytes, NoMemory, Size};
use vt_grid::Grid;
use vt_screen::{BLANK, Emu, any_cut};

/// The screen that is drawn on.
const SIZE: Size = Size { rows: 3, cols: 20 };

/// The lines for each line of the text: one for each of its side effects, and then the rows that it changed.
pub(crate) fn drawn(alloc: Global, text: &[u8]) -> Result<Bytes, NoMemory> {
    let mut teller = Teller::new(alloc);
    let mut emu = Emu::new(Grid::blank(alloc, SIZE, BLANK)?);
    let mut shown = Grid::blank(alloc, SIZE, BLANK)?;
    feed_all(alloc, &mut emu, text, &mut shown, &mut teller)?;
    teller.finish()
}

/// Runs the text on the screen, a line at once, and draws the rows that each line changed. However the text is
/// cut, the screen is that of the whole text.
fn feed_all(
    alloc: Global,
    emu: &mut Emu,
    text: &[u8],
    shown: &mut Grid,
    teller: &mut Teller,
) -> Result<(), NoMemory>
    ensures { OnOk result (emu.new ≡ after emu.old text.now) }
{
    any_cut();
    let mut at = 0;
    while at < text.len() {
        let end = line_end(text, at);
        emu.write_with(&text[at..end], teller);
        draw_changes(alloc, emu.grid(), shown, teller)?;
        at = end;
    }
    Ok(())
}

// The end of the line that begins at this byte.
fn line_end(text: &[u8], at: usize) -> usize
    requires { at < length text.now }
    ensures after { at < result }
    ensures within { result ≤ length text.now }
{
    for i in at..text.len() {
        if text[i] == b'\n' {
            return i + 1;
        }
    }
    text.len()
}

// Adds the rows that differ from the shown ones, and shows them.
fn draw_changes(
    alloc: Global,
    grid: &Grid,
    shown: &mut Grid,
    teller: &mut Teller,
) -> Result<(), NoMemory> {
    let size = grid.size();
    fit(alloc, shown, size)?;
    for y in 0..size.rows {
        if !shown.is_row_same(grid, y) {
            teller.add_row(grid, y)?;
        }
    }
    shown.copy_from(grid);
    Ok(())
}

// Begins with a blank screen again if the size has changed.
fn fit(alloc: Global, shown: &mut Grid, size: Size) -> Result<(), NoMemory>
    ensures rows { OnOk result (shown.new.rows ≡ size.rows) }
    ensures columns { OnOk result (shown.new.cols ≡ size.cols) }
{
    let was = shown.size();
    if was.rows != size.rows || was.cols != size.cols {
        *shown = Grid::blank(alloc, size, BLANK)?;
    }
    Ok(())
}
