//! `screen R C`: the rows of a screen after the input.
ghost use Rattle.std.specs.Prelude.{◌≡◌, IfOk};
ghost use Rattle.vt_dump.specs.Rows.{rows_text};
ghost use Rattle.vt_tool.specs.Outcome.{fine_text};
ghost use Rattle.vt_tool.specs.Streaming.{GivesScreen};

use crate::answer::Answer;
use crate::status::Status;
use crate::streamed::Streamed;
use crate::streaming::screen_stream;
use std::alloc::Global;
use vt_base::{NoMemory, Size};
use vt_dump::text_rows;
use vt_grid::Grid;
use vt_io::Source;
use vt_screen::{BLANK, Emu};

/// The most bytes that one read asks for.
const PIECE_BYTES: usize = 4_096;

/// Draws the bytes of the source on a blank screen of this size, or returns the status of a run
/// without the screen.
pub(crate) fn draw<S: Source>(alloc: Global, size: Size, src: &mut S) -> Result<Emu, Status>
    ensures { GivesScreen size.rows size.cols (S.stream src.old) (S.stream src.new) result }
{
    let Ok(grid) = Grid::blank(alloc, size, BLANK) else {
        return Err(Status::NoMemory);
    };
    let mut emu = Emu::new(grid);
    let mut piece = [0; PIECE_BYTES];
    match screen_stream(src, &mut emu, &mut piece) {
        Streamed::End => Ok(emu),
        Streamed::Fault => Err(Status::ReadFault),
        Streamed::TooLong => Err(Status::TooLong),
    }
}

/// The rows of the screen.
pub(crate) fn answer(alloc: Global, emu: &Emu) -> Result<Answer, NoMemory>
    ensures { IfOk result (λ answer. answer ≡ fine_text (rows_text emu.now.state.grid.cells)) }
{
    Ok(Answer::fine(text_rows(alloc, emu.grid())?))
}
