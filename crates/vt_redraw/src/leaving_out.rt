//! The parts of a screen that no text draws.
ghost use Rattle.std.specs.Prelude.{◌≡◌, ◌&&◌, nat_lt};
ghost use Rattle.vt_redraw.specs.Drawable.{is_plain_pair};
ghost use Rattle.vt_redraw.specs.Near.{left_out};

use crate::drawable::{are_rows_drawable, is_plain_pair};
use crate::near_state::{is_in_region, is_region};
use vt_screen::{Emu, ScreenState};

/// The parts of a screen that its nearest drawable one changes.
#[derive(Clone, Copy, Debug, Drop, PartialEq)]
pub struct LeftOut {
    /// A cell has no character that prints itself, or only a half of one.
    pub cells: bool,
    /// A colour of the pen, of the default pair or of the saved pen is bright.
    pub colours: bool,
    /// The saved cursor is outside the screen.
    pub saved: bool,
    /// The region has one row, and the screen has more.
    pub region: bool,
    /// Rows are counted from the region's first one, and the cursor is outside the region.
    pub origin: bool,
    /// The high bit of bytes is changed outside the null mapping.
    pub high_bit: bool,
}

/// What a text of the screen leaves out: nothing if the screen is [`redrawable`](crate::redrawable), else the parts in
/// which [`near`](crate::near) differs from it. This project's own.
pub fn left_out(emu: &Emu) -> LeftOut
    ensures { result ≡ left_out emu.now.state }
{
    let size = emu.grid().size();
    let s = emu.state();
    LeftOut {
        cells: !are_rows_drawable(emu.grid()),
        colours: !has_plain_colours(s),
        saved: size.rows <= s.saved.y || size.cols <= s.saved.x,
        region: !is_region(size.rows, s),
        origin: s.origin && !is_in_region(size.rows, s),
        high_bit: s.pen.toggle && !s.pen.alt,
    }
}

// Whether the colours of the pen, of the default pair and of the saved pen aren't bright.
fn has_plain_colours(s: &ScreenState) -> bool
    ensures { result
        ≡ (is_plain_pair s.now.pen.attr
        && is_plain_pair s.now.saved.attr
        && nat_lt s.now.pen.def_fg 8
        && nat_lt s.now.pen.def_bg 8) }
{
    is_plain_pair(&s.pen.attr)
        && is_plain_pair(&s.saved.attr)
        && s.pen.def_fg < 8
        && s.pen.def_bg < 8
}
