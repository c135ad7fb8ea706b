//! The screens that a text can draw.
ghost use Rattle.std.specs.Prelude.{◌≡◌, ◌<◌};
ghost use Rattle.std.specs.List.{list_all};
ghost use Rattle.vt_grid.specs.Grid.{row_at};
ghost use Rattle.vt_redraw.specs.Drawable.{is_glyph, is_plain_pair, is_redrawable, is_row_drawable, is_state_drawable};

use vt_cells::{Attr, HALF, columns};
use vt_grid::Grid;
use vt_screen::{Emu, ScreenState};

/// Whether a text can draw the screen. Each cell must have a character that prints itself (20 to 7E, or A0 to
/// 10FFFF, of one or two columns), or be the right half of one. The saved cursor must be on the screen; only a change
/// of size can move it off. This project's own.
#[tactic(auto, unfolding(crate::specs::Drawable::is_redrawable))]
pub fn redrawable(emu: &Emu) -> bool
    ensures { result ≡ is_redrawable emu.now.state }
{
    let size = emu.grid().size();
    are_rows_drawable(emu.grid()) && is_state_drawable(size.rows, size.cols, emu.state())
}

/// Whether a text can draw the rows.
pub(crate) fn are_rows_drawable(g: &Grid) -> bool
    ensures { result ≡ list_all is_row_drawable g.now.cells }
{
    for y in 0..g.size().rows {
        if !is_row_drawable(g, y) {
            return false;
        }
    }
    true
}

fn is_row_drawable(g: &Grid, y: u8) -> bool
    requires { y < g.now.rows }
    ensures { result ≡ is_row_drawable (row_at g.now y) }
{
    let mut wide = false;
    let mut attr = 0;
    for cell in g.row(y) {
        if wide {
            if cell.code != HALF || cell.attr != attr {
                return false;
            }
            wide = false;
            attr = 0;
        } else {
            if !is_glyph(cell.code) {
                return false;
            }
            wide = columns(cell.code) == 2;
            attr = cell.attr;
        }
    }
    !wide
}

/// Whether the character prints itself.
#[tactic(auto, unfolding(crate::specs::Drawable::is_glyph))]
pub(crate) fn is_glyph(code: u32) -> bool
    ensures { result ≡ is_glyph code }
{
    matches!(code, 0x20..=0x7E | 0xA0..=0xD7FF | 0xE000..=0x10FFFF) && 1 <= columns(code)
}

#[tactic(auto, unfolding(crate::specs::Drawable::is_state_drawable))]
fn is_state_drawable(rows: u8, cols: u8, s: &ScreenState) -> bool
    ensures { result ≡ is_state_drawable rows cols s.now }
{
    is_plain_pair(&s.pen.attr)
        && is_plain_pair(&s.saved.attr)
        && s.pen.def_fg < 8
        && s.pen.def_bg < 8
        && s.saved.y < rows
        && s.saved.x < cols
        && (s.top < s.bottom || rows == 1)
        && (!s.origin || s.top <= s.y && s.y <= s.bottom)
        && (!s.pen.toggle || s.pen.alt)
}

/// Whether SGR has numbers for the colours.
pub(crate) fn is_plain_pair(a: &Attr) -> bool
    ensures { result ≡ is_plain_pair a.now }
{
    a.fg < 8 && a.bg < 8
}
