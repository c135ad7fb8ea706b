//! `columns`: how many columns a code point takes, by the kit's table.
ghost use Rattle.std.specs.Prelude.{◌≡◌, ◌≤◌};
ghost use Rattle.vt_cells.specs.Width.{columns};

use unicode_width::UnicodeWidthChar;

/// The code of a cell that is the right half of the character to its left: one more than the last
/// code point. This project's own.
pub const HALF: u32 = 0x11_0000;

/// The soft hyphen, which takes no column.
const SOFT_HYPHEN: u32 = 0xAD;

/// How many columns of a screen a character takes, by the kit's table of widths (Unicode Standard
/// Annex 11). The characters next to it make no difference.
#[inline(always)]
#[tactic(auto, using(crate::proofs::Widths::widths))]
pub fn columns(code: u32) -> u8
    ensures value { result ≡ columns code }
    ensures bound { result ≤ 2 }
{
    match code {
        SOFT_HYPHEN => 0,
        // Codes below the combining marks.
        0..=0x2FF => 1,
        // Han, and the syllables of Hangul.
        0x3400..=0x9FFF | 0xAC00..=0xD7A3 => 2,
        _ => looked_up(code),
    }
}

#[tactic(auto, unfolding(crate::specs::Width::columns))]
fn looked_up(code: u32) -> u8
    ensures value { result ≡ columns code }
    ensures bound { result ≤ 2 }
{
    match char::from_u32(code) {
        Some(c) => c.width().unwrap_or(1).min(2) as u8,
        None => 1,
    }
}
