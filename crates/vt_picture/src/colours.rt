//! The colours of cells, and the classes of their text.
ghost use Rattle.std.specs.Prelude.{◌≡◌, ◌<◌};
ghost use Rattle.vt_picture.specs.Colours.{attribute, background, classes, colour, foreground};

use vt_cells::{Cell, swapped};
use vt_screen::ScreenState;

/// The numbers of the palette's colours by those of VGA, which counts blue 1 and red 4.
const PALETTE_NUMBERS: [u8; 16] = [0, 4, 2, 6, 1, 5, 3, 7, 8, 12, 10, 14, 9, 13, 11, 15];

/// The cell's attribute byte. On a reversed screen its two colours are exchanged.
#[tactic(auto, unfolding(crate::specs::Colours::attribute))]
pub(crate) fn attribute(state: &ScreenState, cell: Cell) -> u8
    ensures { result ≡ attribute state.now cell }
{
    if state.reverse {
        swapped(cell.attr)
    } else {
        cell.attr
    }
}

/// The colour of the characters.
#[tactic(auto, unfolding(crate::specs::Colours::foreground))]
pub(crate) fn foreground(state: &ScreenState, attr: u8) -> (u8, u8, u8)
    ensures { result ≡ foreground state.now attr }
{
    colour(state, attr % 16)
}

/// The background colour.
#[tactic(auto, unfolding(crate::specs::Colours::background))]
pub(crate) fn background(state: &ScreenState, attr: u8) -> (u8, u8, u8)
    ensures { result ≡ background state.now attr }
{
    colour(state, attr / 16 % 8)
}

#[tactic(auto, unfolding(crate::specs::Colours::colour))]
fn colour(state: &ScreenState, n: u8) -> (u8, u8, u8)
    requires { n < 16 }
    ensures { result ≡ colour state.now n }
{
    state.palette.get(PALETTE_NUMBERS[usize::from(n)])
}

/// The attribute that names the classes of a text, or nothing.
#[tactic(auto, unfolding(crate::specs::Colours::classes))]
pub(crate) fn classes(attr: u8) -> &'static [u8]
    ensures { result.now ≡ classes attr }
{
    match (attr % 16 > 8, attr / 128 == 1) {
        (true, true) => b" class='bold blink'",
        (true, false) => b" class='bold'",
        (false, true) => b" class='blink'",
        (false, false) => b"",
    }
}
