//! The attribute byte of a character and of a blank, and the byte with its colours exchanged.
ghost use Rattle.std.specs.Prelude.{◌≡◌, ◌<◌, if◌then◌else◌};
ghost use Rattle.vt_cells.specs.AttrByte.{attr_byte, byte_of, erase_byte, with_bit_flipped, foreground, with_colours_swapped, vga};

use crate::{Attr, Intensity, Look};

/// The bit of an attribute byte that makes the cell blink.
const BLINK: u8 = 0x80;

/// The bit of an attribute byte that makes the character bright.
const BRIGHT: u8 = 0x08;

/// Green in VGA's numbers, which stands for italic. This project's own.
const ITALIC: u8 = 0x02;

/// The numbers that VGA has for the colours, in their order.
static VGA: [u8; 16] = [0, 4, 2, 6, 1, 5, 3, 7, 8, 12, 10, 14, 9, 13, 11, 15];

/// The attribute byte of a character. This project's own.
pub fn attr_byte(a: &Attr, l: &Look) -> u8
    ensures { result ≡ attr_byte a.now l.now }
{
    let turned = turned(byte_of(vga(a.bg), foreground(a, l)), a.reverse);
    brightened(blinking(turned, a.blink), a.intensity == Intensity::Bold)
}

/// The attribute byte of erased cells, which have the colours alone. This project's own.
pub fn erase_byte(a: &Attr) -> u8
    ensures { result ≡ erase_byte a.now }
{
    byte_of(vga(a.bg), vga(a.fg))
}

/// The attribute byte with the colours of character and background exchanged.
#[tactic(auto, using(crate::proofs::Bits::bits))]
pub fn swapped(b: u8) -> u8
    ensures { result ≡ with_colours_swapped b }
{
    b & 0x88 | (b >> 4 | b << 4) & 0x77
}

// The colour that stands for italic, underline or half-bright, or the character's own.
fn foreground(a: &Attr, l: &Look) -> u8
    ensures colour { result ≡ foreground a.now l.now }
    ensures nibble { result < 16 }
{
    if a.italic {
        ITALIC
    } else if a.underline {
        vga(l.ul)
    } else if a.intensity == Intensity::Dim {
        vga(l.dim)
    } else {
        vga(a.fg)
    }
}

// A background and a character's colour in one byte.
#[tactic(auto, using(crate::proofs::Bits::bits))]
fn byte_of(bg: u8, fg: u8) -> u8
    requires bg { bg < 16 }
    requires fg { fg < 16 }
    ensures { result ≡ byte_of bg fg }
{
    bg << 4 | fg
}

// The byte with reverse applied.
fn turned(b: u8, reverse: bool) -> u8
    ensures { result ≡ (if reverse then with_colours_swapped b else b) }
{
    if reverse { swapped(b) } else { b }
}

#[tactic(auto, using(crate::proofs::Bits::bits))]
fn blinking(b: u8, blink: bool) -> u8
    ensures { result ≡ (if blink then with_bit_flipped 128 b else b) }
{
    if blink { b ^ BLINK } else { b }
}

#[tactic(auto, using(crate::proofs::Bits::bits))]
fn brightened(b: u8, bold: bool) -> u8
    ensures { result ≡ (if bold then with_bit_flipped 8 b else b) }
{
    if bold { b ^ BRIGHT } else { b }
}

// A colour in VGA's numbers: red and blue change places.
#[inline(always)]
#[tactic(auto, using(crate::proofs::Bits::bits))]
fn vga(c: u8) -> u8
    requires { c < 16 }
    ensures colour { result ≡ vga c }
    ensures nibble { result < 16 }
{
    VGA[usize::from(c)]
}
