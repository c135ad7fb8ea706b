//! The whole text of a screen.
ghost use Rattle.std.specs.Prelude.{◌≡◌, ◌<◌, ◌≤◌, ◌++◌, length, IfOk, IsTrue, OnOk};
ghost use Rattle.vt_redraw.specs.Cells.{changed_rows};
ghost use Rattle.vt_redraw.specs.Drawable.{is_redrawable};
ghost use Rattle.vt_redraw.specs.Lengths.{redraw_most};
ghost use Rattle.vt_redraw.specs.Near.{near};
ghost use Rattle.vt_redraw.specs.Redraw.{IsSameSize, Redraws, changes_of, redraw_of};
ghost use Rattle.vt_canvas.specs.Screen.{IsWhole, Screen};

use crate::cells::add_row;
use crate::drawable::redrawable;
use crate::filled_rows::add_rows_but;
use crate::modes::{add_clearing, add_setting};
use crate::nearest::near;
use crate::state::add_state;
use crate::stored::stays_stored;
use std::alloc::Global;
use vt_base::{Bytes, NoMemory};
use vt_grid::Grid;
use vt_screen::{BLANK, Emu};

/// The room of a text at first: few screens have a longer one.
const FIRST_ROOM: usize = 4_096;

/// The text that draws the screen again on any screen of its size on which no text is pending, whatever it shows and
/// whatever its state: cells, cursor, pen, modes, region, tab stops, tables, palette and the saved cursor. The tab
/// stops past the last column and the user's table are not restored. Every byte belongs to a control sequence, a
/// control character or a character of the screen. This project's own.
pub fn redraw(alloc: Global, emu: &Emu) -> Result<Bytes, NoMemory>
    requires { IsTrue (is_redrawable emu.now.state) }
    ensures text { IfOk result (λ text. text.bytes ≡ redraw_of emu.now.state) }
    ensures again { IfOk result
        (λ text. (other : Screen) → IsWhole other → IsSameSize other.grid emu.now.state.grid
        → Redraws emu.now.state other text.bytes) }
    ensures short { IfOk result
        (λ text. length text.bytes ≤ redraw_most emu.now.state.grid.rows emu.now.state.grid.cols) }
{
    stays_stored(emu);
    let text = whole_text(alloc, emu)?;
    Ok(text)
}

/// The text that draws the screen again on any screen with these cells on which no text is pending: the rows that
/// differ ([`Grid::is_row_same`]), and the state. It restores what [`redraw`] restores. This project's own.
pub fn redraw_changes(alloc: Global, old: &Grid, emu: &Emu) -> Result<Bytes, NoMemory>
    requires size { IsSameSize old.now emu.now.state.grid }
    requires redrawable { IsTrue (is_redrawable emu.now.state) }
    ensures text { IfOk result (λ text. text.bytes ≡ changes_of old.now emu.now.state) }
    ensures again { IfOk result
        (λ text. (other : Screen) → IsWhole other → other.grid ≡ old.now
        → Redraws emu.now.state other text.bytes) }
    ensures short { IfOk result
        (λ text. length text.bytes ≤ redraw_most emu.now.state.grid.rows emu.now.state.grid.cols) }
{
    stays_stored(emu);
    let text = changes_text(alloc, old, emu)?;
    Ok(text)
}

/// The text of [`redraw`] for the nearest screen that a text can draw ([`near`]): that of the screen itself if it is
/// redrawable. This project's own.
#[tactic(auto, using(crate::proofs::for_laws::Nearby::screen_stays))]
pub fn redraw_near(alloc: Global, emu: &Emu) -> Result<Bytes, NoMemory>
    ensures text { IfOk result (λ text. text.bytes ≡ redraw_of (near emu.now.state)) }
    ensures again { IfOk result
        (λ text. (other : Screen) → IsWhole other → IsSameSize other.grid emu.now.state.grid
        → Redraws (near emu.now.state) other text.bytes) }
    ensures short { IfOk result
        (λ text. length text.bytes ≤ redraw_most emu.now.state.grid.rows emu.now.state.grid.cols) }
{
    if redrawable(emu) {
        return redraw(alloc, emu);
    }
    let shown = near(alloc, emu)?;
    redraw(alloc, &shown)
}

/// The text of [`redraw_changes`] for the nearest screen that a text can draw. This project's own.
#[tactic(auto, using(crate::proofs::for_laws::Nearby::screen_stays))]
pub fn redraw_changes_near(alloc: Global, old: &Grid, emu: &Emu) -> Result<Bytes, NoMemory>
    requires { IsSameSize old.now emu.now.state.grid }
    ensures text { IfOk result (λ text. text.bytes ≡ changes_of old.now (near emu.now.state)) }
    ensures again { IfOk result
        (λ text. (other : Screen) → IsWhole other → other.grid ≡ old.now
        → Redraws (near emu.now.state) other text.bytes) }
    ensures short { IfOk result
        (λ text. length text.bytes ≤ redraw_most emu.now.state.grid.rows emu.now.state.grid.cols) }
{
    if redrawable(emu) {
        return redraw_changes(alloc, old, emu);
    }
    let shown = near(alloc, emu)?;
    redraw_changes(alloc, old, &shown)
}

#[tactic(auto, unfolding(crate::specs::Redraw::redraw_of))]
fn whole_text(alloc: Global, emu: &Emu) -> Result<Bytes, NoMemory>
    requires { IsTrue (is_redrawable emu.now.state) }
    ensures { IfOk result (λ text. text.bytes ≡ redraw_of emu.now.state) }
{
    let mut text = Bytes::with_room(alloc, FIRST_ROOM)?;
    add_setting(alloc, &mut text)?;
    add_clearing(alloc, &mut text)?;
    add_rows_but(alloc, &mut text, emu.grid(), BLANK)?;
    add_state(alloc, &mut text, emu)?;
    Ok(text)
}

#[tactic(auto, unfolding(crate::specs::Redraw::changes_of))]
fn changes_text(alloc: Global, old: &Grid, emu: &Emu) -> Result<Bytes, NoMemory>
    requires size { IsSameSize old.now emu.now.state.grid }
    requires redrawable { IsTrue (is_redrawable emu.now.state) }
    ensures { IfOk result (λ text. text.bytes ≡ changes_of old.now emu.now.state) }
{
    let mut text = Bytes::new(alloc);
    add_setting(alloc, &mut text)?;
    add_changed_rows(alloc, &mut text, old, emu.grid())?;
    add_state(alloc, &mut text, emu)?;
    Ok(text)
}

// Adds the rows that differ.
fn add_changed_rows(alloc: Global, text: &mut Bytes, old: &Grid, g: &Grid) -> Result<(), NoMemory>
    requires { IsSameSize old.now g.now }
    ensures { OnOk result (text.new.bytes
        ≡ text.old.bytes ++ changed_rows 0 old.now.cells g.now.cells) }
{
    old.stays_full();
    for y in 0..g.size().rows {
        if !old.is_row_same(g, y) {
            add_row(alloc, text, g, y)?;
        }
    }
    Ok(())
}
