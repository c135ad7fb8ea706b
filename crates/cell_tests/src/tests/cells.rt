//! Attributes with the bytes that show them, colours folded to sixteen, the palette, and the columns of characters.
use super::checks::check;
use vt_cells::Intensity::{Bold, Dim, Normal};
use vt_cells::{
    Attr, Intensity, Look, Palette, attr_byte, columns, erase_byte, fold_bg, fold_fg, is_plain,
    rgb_of, swapped,
};

// A foreground and a background, the intensity, whether italic, underline, blink and reverse are on, and the
// byte that shows them (console_codes(4)).
type Shown = (u8, u8, Intensity, [bool; 4], u8);

const SHOWN: &[Shown] = &[
    // white on black
    (7, 0, Normal, [false, false, false, false], 0x07),
    // bold red on black
    (1, 0, Bold, [false, false, false, false], 0x0C),
    // cyan on yellow
    (6, 3, Normal, [false, false, false, false], 0x63),
    // italic
    (1, 0, Normal, [true, false, false, false], 0x02),
    // underline
    (7, 0, Normal, [false, true, false, false], 0x0F),
    // half-bright
    (7, 0, Dim, [false, false, false, false], 0x08),
    // underline before half-bright
    (7, 0, Dim, [false, true, false, false], 0x0F),
    // italic before underline
    (7, 0, Normal, [true, true, false, false], 0x02),
    // bold turns bright off
    (7, 0, Bold, [false, true, false, false], 0x07),
    // reverse
    (7, 0, Normal, [false, false, false, true], 0x70),
    // reversed underline stays bright
    (7, 0, Normal, [false, true, false, true], 0x78),
    // all of them
    (7, 0, Bold, [false, false, true, true], 0xF8),
];

/// The attributes with these colours, and with italic, underline, blink and reverse on or off.
pub(crate) fn attr_of(fg: u8, bg: u8, intensity: Intensity, on: [bool; 4]) -> Attr {
    Attr {
        fg: fg.min(15),
        bg: bg.min(7),
        intensity,
        italic: on[0],
        underline: on[1],
        blink: on[2],
        reverse: on[3],
    }
}

fn is_shown(case: &Shown) -> bool {
    let (fg, bg, intensity, on, byte) = *case;
    let look = Look { ul: 15, dim: 8 };
    attr_byte(&attr_of(fg, bg, intensity, on), &look) == byte
}

#[test]
fn shows_attributes(rt: HostRuntime) {
    for case in SHOWN {
        check(&rt, is_shown(case), u32::from(case.4));
    }
    let shown = attr_of(1, 4, Normal, [true, false, true, true]);
    check(&rt, erase_byte(&shown) == 0x14, "the colours alone");
    check(&rt, swapped(0xAC) == 0xCA, "blink and bright stay");
}

// An index of the 256 colours, and its red, green and blue.
type Indexed = (u8, (u8, u8, u8));

const INDEXED: &[Indexed] = &[
    (0, (0, 0, 0)),
    (1, (0xAA, 0, 0)),
    (6, (0, 0xAA, 0xAA)),
    (8, (0x55, 0x55, 0x55)),
    (12, (0x55, 0x55, 0xFF)),
    (16, (0, 0, 0)),
    (17, (0, 0, 42)),
    (196, (212, 0, 0)),
    (231, (212, 212, 212)),
    (232, (8, 8, 8)),
    (244, (128, 128, 128)),
    (255, (238, 238, 238)),
];

// Red, green and blue, and the foreground that stands for them, and whether it is bright.
type Folded = ((u8, u8, u8), (u8, bool));

const FOLDED: &[Folded] = &[
    // red
    ((255, 0, 0), (1, true)),
    // the indices 8, 244 and 196
    ((0x55, 0x55, 0x55), (0, true)),
    ((128, 128, 128), (7, false)),
    ((212, 0, 0), (1, true)),
    // black
    ((0, 0, 0), (0, false)),
    // the lightest dark grey, and a light grey
    ((0x55, 0x55, 0x55), (0, true)),
    ((0x56, 0x56, 0x56), (7, false)),
    // half of the largest isn't above it; just above
    ((0xAA, 0x55, 0), (1, false)),
    ((0xAB, 0x56, 0), (3, true)),
];

fn is_indexed(palette: &Palette, case: &Indexed) -> bool {
    let (index, rgb) = *case;
    rgb_of(index) == rgb && (index >= 16 || palette.get(index) == rgb)
}

fn is_folded(case: &Folded) -> bool {
    let ((r, g, b), hue) = *case;
    fold_fg(r, g, b) == hue
}

fn is_set() -> bool {
    let mut palette = Palette::start();
    palette.set(12, (1, 2, 3));
    palette.get(12) == (1, 2, 3)
}

#[test]
fn folds_colours(rt: HostRuntime) {
    let palette = Palette::start();
    for case in INDEXED {
        check(&rt, is_indexed(&palette, case), u32::from(case.0));
    }
    check(&rt, is_set(), "a colour of the palette");
    for case in FOLDED {
        let (r, g, b) = case.0;
        check(&rt, is_folded(case), &[r, g, b]);
    }
    check(&rt, fold_bg(128, 0, 127) == 1, "blue");
    check(&rt, fold_bg(127, 128, 255) == 6, "cyan");
}

// A code, and how many columns it takes: the widths of Unicode 18.0 (Unicode Standard Annex 11), with
// marks and format characters at none.
const TAKEN: &[(u32, u8)] = &[
    (0x00, 1),
    (0x1F, 1),
    (0x41, 1),
    (0x7F, 1),
    (0x9B, 1),
    (0xAC, 1),
    (0xAD, 0),
    (0xAE, 1),
    (0x2FF, 1),
    (0x300, 0),
    (0x36F, 0),
    (0x370, 1),
    (0x1100, 2),
    (0x1161, 0),
    (0x17D8, 2),
    (0x200B, 0),
    (0x20AC, 1),
    (0x2500, 1),
    (0x3042, 2),
    (0x33FF, 2),
    (0x3400, 2),
    (0x4E00, 2),
    (0x9FFF, 2),
    (0xAC00, 2),
    (0xD7A3, 2),
    (0xD800, 1),
    (0xDFFF, 1),
    (0xFE0F, 0),
    (0xFF21, 2),
    (0xFF71, 1),
    (0xFFFD, 1),
    (0x1F600, 2),
    (0x20000, 2),
    (0x10FFFF, 1),
    (0x110000, 1),
    (0xFFFF_FFFF, 1),
];

// Whether the code takes so many columns, and is called plain only if it takes one.
fn takes(code: u32, width: u8) -> bool {
    columns(code) == width && (width == 1 || !is_plain(code))
}

#[test]
fn characters_have_columns(rt: HostRuntime) {
    for (code, width) in TAKEN {
        check(&rt, takes(*code, *width), *code);
    }
    check(
        &rt,
        is_plain(0x20) && is_plain(0x2500) && !is_plain(0x4E00),
        "plain characters",
    );
}
