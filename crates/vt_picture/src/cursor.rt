//! The cursor.
ghost use Rattle.std.specs.Prelude.{◌≡◌, ◌++◌, OnOk};
ghost use Rattle.vt_picture.specs.Picture.{cursor_text};

use crate::adding::add_rectangle;
use crate::colours::{attribute, foreground};
use crate::rows::{CELL_HEIGHT, CELL_WIDTH};
use std::alloc::Global;
use vt_base::{Bytes, NoMemory};
use vt_screen::Emu;

/// How far below the top of its cell the cursor's line begins.
const CURSOR_LINE: u16 = 13;

/// How high the cursor's line is.
const CURSOR_HEIGHT: u16 = 2;

/// Adds the cursor if it is visible: a line at the foot of its cell.
#[tactic(auto, using(std::proofs::lemmas::Option::get_or_from_slice_get), unfolding(crate::specs::Picture::cursor_text))]
pub(crate) fn add_cursor(alloc: Global, text: &mut Bytes, emu: &Emu) -> Result<(), NoMemory>
    ensures { OnOk result (text.new.bytes ≡ text.old.bytes ++ cursor_text emu.now.state) }
{
    let state = emu.state();
    if !state.visible {
        return Ok(());
    }
    let cell = emu.grid().at(state.y, state.x);
    add_rectangle(
        alloc,
        text,
        CELL_WIDTH * u16::from(state.x),
        CELL_HEIGHT * u16::from(state.y) + CURSOR_LINE,
        CELL_WIDTH,
        CURSOR_HEIGHT,
        foreground(state, attribute(state, cell)),
    )
}
