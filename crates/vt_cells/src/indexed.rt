//! The colours of the indices from 0 to 255.
ghost use Rattle.std.specs.Prelude.{◌≡◌, ◌≤◌, ◌==◌, ◌*◌, ◌/◌, ◌%◌, ◌^◌, if◌then◌else◌};
ghost use Rattle.vt_cells.specs.Colours.{rgb_of, sixth, with_parts};

/// Red, green and blue of a colour index (console_codes(4), "ECMA-48 Select Graphic Rendition", 38
/// and 48; the values are this project's own).
pub fn rgb_of(i: u8) -> (u8, u8, u8)
    ensures { result ≡ rgb_of i }
{
    match i {
        0..=7 => with_parts(i, 0xAA, 0x00),
        8..=15 => with_parts(i, 0xFF, 0x55),
        16..=231 => {
            let cube = i - 16;
            (sixth(cube / 36), sixth(cube / 6 % 6), sixth(cube % 6))
        }
        232..=255 => {
            let grey = (u16::from(i) * 10 - 2312) as u8;
            (grey, grey, grey)
        }
    }
}

// The colour with the value `on` in the parts that `c` has, and `off` in the others.
fn with_parts(c: u8, on: u8, off: u8) -> (u8, u8, u8)
    ensures { result ≡ with_parts c on off }
{
    (
        part(c, 0, on, off),
        part(c, 1, on, off),
        part(c, 2, on, off),
    )
}

fn part(c: u8, bit: u8, on: u8, off: u8) -> u8
    requires { bit ≤ 2 }
    ensures { result ≡ (if c / 2 ^ bit % 2 == 1 then on else off) }
{
    if c >> bit & 1 == 1 { on } else { off }
}

// One of the six levels of a part.
fn sixth(n: u8) -> u8
    requires { n ≤ 5 }
    ensures { result ≡ sixth n }
{
    (u16::from(n) * 255 / 6) as u8
}
