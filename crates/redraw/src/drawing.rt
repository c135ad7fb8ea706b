//! The screen that an input makes, as the text that draws it again.
ghost use Rattle.std.specs.Prelude.{IfOk};
ghost use Rattle.redraw.specs.Drawn.{IsDrawingOf};
ghost use Rattle.vt_screen.specs.Run.{after, start};

use std::alloc::Global;
use vt_base::{Bytes, NoMemory, Size};
use vt_grid::Grid;
use vt_redraw::{redraw, redrawable};
use vt_screen::{BLANK, Emu};

/// The text that draws a screen again, if there is one.
#[derive(Drop)]
pub(crate) enum Drawing {
    Text(Bytes),
    /// No text draws the screen.
    Refused,
}

/// Runs the input on a screen of this size, and draws the screen that it makes.
pub(crate) fn drawn(alloc: Global, size: Size, input: &[u8]) -> Result<Drawing, NoMemory>
    ensures { IfOk result (IsDrawingOf (after (start size.rows size.cols) input.now).state) }
{
    let mut emu = Emu::new(Grid::blank(alloc, size, BLANK)?);
    emu.write(input);
    if !redrawable(&emu) {
        return Ok(Drawing::Refused);
    }
    Ok(Drawing::Text(redraw(alloc, &emu)?))
}
