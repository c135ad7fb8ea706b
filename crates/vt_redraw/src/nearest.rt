//! The nearest screen that a text can draw.
ghost use Rattle.std.specs.Prelude.{◌≡◌, ◌<◌, ◌+◌, ◌∷◌, ◌&&◌, ◌||◌, drop, map, not, slice_index_or, if◌then◌else◌, All, IfOk, IsTrue};
ghost use Rattle.vt_cells.specs.declared.cell.Cell.{Cell};
ghost use Rattle.vt_grid.specs.Grid.{HasPlace, row_at, with_cell, with_row};
ghost use Rattle.vt_redraw.specs.Drawable.{is_redrawable};
ghost use Rattle.vt_redraw.specs.Near.{is_half_of, is_wide, near, near_cell, near_row};
ghost use Rattle.vt_redraw.specs.Nearing.{begins_pair, near_from};
ghost use Rattle.vt_redraw.specs.Redraw.{IsSameSize};
ghost use Rattle.vt_units.specs.Rest.{fresh, start_mode};
ghost use Rattle.vt_units.specs.Run.{make_reached};

use crate::drawable::is_glyph;
use crate::near_state::near_state;
use crate::stored::stays_stored;
use std::alloc::Global;
use vt_base::NoMemory;
use vt_cells::{Cell, HALF, columns};
use vt_grid::Grid;
use vt_screen::{BLANK, Emu};

/// The character of a cell that no text draws: U+FFFD.
const REPLACEMENT: u32 = 0xFFFD;

/// The nearest screen that a text can draw, with no text pending: cells that no text draws have U+FFFD, the colours of
/// the pens aren't bright, the saved cursor is on the screen, a region of one row is the whole screen, origin mode is
/// off if the cursor is outside the region, and the high bit is changed in the null mapping alone. A screen that is
/// [`redrawable`](crate::redrawable) stays. This project's own.
pub fn near(alloc: Global, emu: &Emu) -> Result<Emu, NoMemory>
    ensures screen { IfOk result (λ shown. shown ≡ make_reached (near emu.now.state) (fresh start_mode)) }
    ensures drawable { IfOk result (λ shown. IsTrue (is_redrawable shown.state)) }
{
    stays_stored(emu);
    let size = emu.grid().size();
    let grid = near_grid(alloc, emu.grid())?;
    let state = near_state(size.rows, size.cols, emu.state());
    Ok(Emu::of(grid, state))
}

// The cells of the nearest screen.
fn near_grid(alloc: Global, g: &Grid) -> Result<Grid, NoMemory>
    ensures cells { IfOk result (λ shown. shown ≡ record g.now { cells = map near_row g.now.cells }) }
    ensures bytes { IfOk result (λ _shown. All (All (λ (c : Cell). c.attr < 256)) g.now.cells) }
{
    let mut shown = Grid::blank(alloc, g.size(), BLANK)?;
    for y in 0..g.size().rows {
        draw_row(&mut shown, g, y);
    }
    Ok(shown)
}

// Draws a row of the nearest screen.
fn draw_row(shown: &mut Grid, g: &Grid, y: u8)
    requires size { IsSameSize shown.old g.now }
    requires row { y < g.now.rows }
    ensures row { shown.new ≡ with_row shown.old y (near_row (row_at g.now y)) }
    ensures bytes { All (λ (c : Cell). c.attr < 256) (row_at g.now y) }
{
    shown.stays_full();
    let cols = g.size().cols;
    let mut is_half = false;
    let mut x = 0;
    while x < cols {
        is_half = draw_cell(shown, g, y, x, is_half);
        x += 1;
    }
}

// Draws a cell of the nearest screen, if it is the right half of the cell before it or isn't. Returns whether the next
// one is its right half.
fn draw_cell(shown: &mut Grid, g: &Grid, y: u8, x: u8, is_half: bool) -> bool
    requires place { HasPlace shown.old y x }
    requires old_place { HasPlace g.now y x }
    ensures cell { (c : Cell)
        × (shown.new ≡ with_cell shown.old y x c)
        × (near_from is_half (drop x (row_at g.now y)) ≡ c ∷ near_from result (drop (x + 1) (row_at g.now y))) }
    ensures byte { (d : Cell) → (slice_index_or (row_at g.now y) x d).attr < 256 }
{
    let cell = g.at(y, x);
    let has_half = begins_pair(g, y, x, is_half);
    shown.put(y, x, shown_cell(cell, is_half, has_half));
    has_half
}

// Whether a character of two columns with its right half stands here. It doesn't if this is such a half.
fn begins_pair(g: &Grid, y: u8, x: u8, is_half: bool) -> bool
    requires { HasPlace g.now y x }
    ensures { result ≡ (not is_half && begins_pair (drop x (row_at g.now y))) }
{
    let cols = g.size().cols;
    let next = x + 1;
    if is_half {
        return false;
    }
    if next == cols {
        return false;
    }
    is_pair(g.at(y, x), g.at(y, next))
}

fn is_pair(cell: Cell, next: Cell) -> bool
    ensures { result ≡ (is_wide cell && is_half_of cell next) }
{
    is_glyph(cell.code) && columns(cell.code) == 2 && next.code == HALF && next.attr == cell.attr
}

// A cell of the nearest screen. It is given whether it is the right half of the cell before it, and whether it has its
// own in the next cell.
fn shown_cell(cell: Cell, is_half: bool, has_half: bool) -> Cell
    ensures { result ≡ (if is_half || has_half then cell else near_cell cell) }
{
    if is_half || has_half {
        return cell;
    }
    if is_glyph(cell.code) && columns(cell.code) != 2 {
        return cell;
    }
    Cell {
        code: REPLACEMENT,
        attr: cell.attr,
    }
}
