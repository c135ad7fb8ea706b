//! Colours of 24 bits, folded into those of a text cell.
ghost use Rattle.std.specs.Prelude.{◌≡◌, ◌<◌, if◌then◌else◌};
ghost use Rattle.vt_cells.specs.Colours.{fold_bg, fold_fg, parts_above};

/// The text colour nearest to red `r`, green `g` and blue `b`, and whether it is bold. This
/// project's own.
pub fn fold_fg(r: u8, g: u8, b: u8) -> (u8, bool)
    ensures folded { result ≡ fold_fg r g b }
    ensures colour { result.0 < 8 }
{
    let largest = r.max(g.max(b));
    let hue = parts_above(largest / 2, r, g, b);
    if hue == 7 && largest <= 0x55 {
        return (0, true);
    }
    (hue, largest > 0xAA)
}

/// The background colour nearest to red `r`, green `g` and blue `b`. This project's own.
pub fn fold_bg(r: u8, g: u8, b: u8) -> u8
    ensures folded { result ≡ fold_bg r g b }
    ensures colour { result < 8 }
{
    parts_above(127, r, g, b)
}

// The colour whose parts are those above `level`.
fn parts_above(level: u8, r: u8, g: u8, b: u8) -> u8
    ensures parts { result ≡ parts_above level r g b }
    ensures colour { result < 8 }
{
    part(r > level, 1) | part(g > level, 2) | part(b > level, 4)
}

fn part(on: bool, bit: u8) -> u8
    ensures { result ≡ (if on then bit else 0) }
{
    if on { bit } else { 0 }
}
