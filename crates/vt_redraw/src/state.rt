//! The state of a screen, added to a text.
ghost use Rattle.std.specs.Prelude.{◌≡◌, ◌<◌, ◌≤◌, ◌+◌, ◌++◌, [], IsTrue, OnOk};
ghost use Rattle.vt_redraw.specs.Drawable.{is_redrawable};
ghost use Rattle.vt_redraw.specs.Sequences.{sequence, stop_text};
ghost use Rattle.vt_redraw.specs.State.{cursor_text, region_text, row_number, saved_text, state_text, stops_text};

use crate::cells::add_cells;
use crate::modes::add_modes;
use crate::palette::add_palette;
use crate::pen::{add_attributes, add_pen, add_tables};
use crate::sequences::{add_place, add_private_mode, add_sequence};
use std::alloc::Global;
use vt_base::{Bytes, NoMemory};
use vt_screen::{Emu, Saved, ScreenState, Stops};

/// Adds the text that makes the state, on a screen that has the cells.
pub(crate) fn add_state(alloc: Global, text: &mut Bytes, emu: &Emu) -> Result<(), NoMemory>
    requires { IsTrue (is_redrawable emu.now.state) }
    ensures { OnOk result (text.new.bytes ≡ text.old.bytes ++ state_text emu.now.state) }
{
    stays_drawable(emu);
    emu.grid().stays_full();
    let s = emu.state();
    add_stops(alloc, text, emu.grid().size().cols, &s.stops)?;
    add_saved(alloc, text, &s.saved)?;
    add_region(alloc, text, s)?;
    add_cursor(alloc, text, emu)?;
    add_pen(alloc, text, s)?;
    add_palette(alloc, text, &s.palette)?;
    add_modes(alloc, text, s)?;
    Ok(())
}

// Adds the tab stops of so many columns, and no others.
fn add_stops(alloc: Global, text: &mut Bytes, cols: u8, stops: &Stops) -> Result<(), NoMemory>
    ensures { OnOk result (text.new.bytes ≡ text.old.bytes ++ stops_text cols stops.now) }
{
    add_sequence(alloc, text, 3, &[], b'g')?;
    for x in 0..cols {
        if stops.has(x) {
            add_stop(alloc, text, x)?;
        }
    }
    Ok(())
}

#[tactic(auto, unfolding(crate::specs::Sequences::stop_text))]
fn add_stop(alloc: Global, text: &mut Bytes, x: u8) -> Result<(), NoMemory>
    requires { x < 255 }
    ensures { OnOk result (text.new.bytes
        ≡ text.old.bytes ++ (sequence (x + 1) [] 0x47 ++ stop_text)) }
{
    add_sequence(alloc, text, x + 1, &[], b'G')?;
    text.add(alloc, b"\x1bH")
}

// Adds the saved state.
#[tactic(auto, unfolding(crate::specs::Sequences::save_text))]
fn add_saved(alloc: Global, text: &mut Bytes, v: &Saved) -> Result<(), NoMemory>
    requires row { v.now.y < 255 }
    requires column { v.now.x < 255 }
    ensures { OnOk result (text.new.bytes ≡ text.old.bytes ++ saved_text v.now) }
{
    let v = *v;
    add_attributes(alloc, text, &v.attr)?;
    add_tables(alloc, text, v.g0, v.g1, v.shift)?;
    add_place(alloc, text, v.y, v.x)?;
    text.add(alloc, b"\x1b7")
}

// Adds the region and origin mode.
fn add_region(alloc: Global, text: &mut Bytes, s: &ScreenState) -> Result<(), NoMemory>
    requires { s.now.bottom < 255 }
    ensures { OnOk result (text.new.bytes ≡ text.old.bytes ++ region_text s.now) }
{
    let top = s.top;
    let bottom = s.bottom;
    if top < bottom {
        add_sequence(alloc, text, top + 1, &[bottom + 1], b'r')?;
    }
    add_private_mode(alloc, text, 6, s.origin)
}

// Adds the cursor. If a wrap is pending, its row is drawn to its end once more.
fn add_cursor(alloc: Global, text: &mut Bytes, emu: &Emu) -> Result<(), NoMemory>
    requires { IsTrue (is_redrawable emu.now.state) }
    ensures { OnOk result (text.new.bytes ≡ text.old.bytes ++ cursor_text emu.now.state) }
{
    stays_drawable(emu);
    let grid = emu.grid();
    grid.stays_full();
    let s = emu.state();
    let row = row_number(s);
    if !s.wrap {
        return add_place(alloc, text, row, s.x);
    }
    add_place(alloc, text, row, 0)?;
    add_cells(alloc, text, grid, s.y, false)
}

// The row of the cursor, counted from the first one that a move reaches.
fn row_number(s: &ScreenState) -> u8
    requires { IsTrue s.now.origin → s.now.top ≤ s.now.y }
    ensures value { result ≡ row_number s.now }
    ensures within { result ≤ s.now.y }
{
    if s.origin { s.y - s.top } else { s.y }
}

// Does nothing: it is called for its clauses.
fn stays_drawable(emu: &Emu)
    requires { IsTrue (is_redrawable emu.now.state) }
    ensures saved_row { emu.now.state.state.saved.y < 255 }
    ensures saved_column { emu.now.state.state.saved.x < 255 }
    ensures inside { IsTrue emu.now.state.state.origin
        → emu.now.state.state.top ≤ emu.now.state.state.y }
{
    emu.grid().stays_full();
}
