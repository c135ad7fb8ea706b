//! The state of the nearest screen.
ghost use Rattle.std.specs.Prelude.{◌≡◌, ◌<◌, ◌-◌, ◌%◌, ◌&&◌, if◌then◌else◌};
ghost use Rattle.vt_chars.specs.Utf8.{within};
ghost use Rattle.vt_redraw.specs.Near.{is_region, near_saved, near_state, plain_pair};

use vt_cells::Attr;
use vt_screen::{Saved, ScreenState};
use vt_sgr::Pen;

/// The nearest state that a text can make on a screen of so many rows and columns.
pub(crate) fn near_state(rows: u8, cols: u8, s: &ScreenState) -> ScreenState
    requires rows { 0 < rows }
    requires cols { 0 < cols }
    ensures { result ≡ near_state rows cols s.now }
{
    let mut near = s.copy();
    near.pen = near_pen(s.pen);
    near.saved = near_saved(rows, cols, s.saved);
    near.origin = s.origin && is_in_region(rows, s);
    if !is_region(rows, s) {
        near.top = 0;
        near.bottom = rows - 1;
    }
    near
}

/// Whether the region has two rows or more, or is the whole screen of one row.
pub(crate) fn is_region(rows: u8, s: &ScreenState) -> bool
    ensures { result ≡ is_region rows s.now }
{
    s.top < s.bottom || rows == 1
}

/// Whether the cursor is in the region of the nearest state.
pub(crate) fn is_in_region(rows: u8, s: &ScreenState) -> bool
    requires { 0 < rows }
    ensures { result
        ≡ within (if is_region rows s.now then s.now.top else 0)
        (if is_region rows s.now then s.now.bottom else rows - 1) s.now.y }
{
    if is_region(rows, s) {
        s.top <= s.y && s.y <= s.bottom
    } else {
        s.y <= rows - 1
    }
}

fn near_pen(pen: Pen) -> Pen
    ensures { result
        ≡ record pen {
          attr = plain_pair pen.attr;
          def_fg = pen.def_fg % 8;
          def_bg = pen.def_bg % 8;
          toggle = pen.toggle && pen.alt;
        } }
{
    Pen {
        attr: plain_pair(pen.attr),
        def_fg: pen.def_fg % 8,
        def_bg: pen.def_bg % 8,
        toggle: pen.toggle && pen.alt,
        ..pen
    }
}

// The saved cursor, as far as the screen goes.
fn near_saved(rows: u8, cols: u8, saved: Saved) -> Saved
    requires rows { 0 < rows }
    requires cols { 0 < cols }
    ensures { result ≡ near_saved rows cols saved }
{
    Saved {
        attr: plain_pair(saved.attr),
        y: saved.y.min(rows - 1),
        x: saved.x.min(cols - 1),
        ..saved
    }
}

// The colours without brightness.
fn plain_pair(attr: Attr) -> Attr
    ensures { result ≡ plain_pair attr }
{
    Attr {
        fg: attr.fg % 8,
        bg: attr.bg % 8,
        ..attr
    }
}
