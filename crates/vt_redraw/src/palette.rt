//! The palette, added to a text.
ghost use Rattle.std.specs.Prelude.{◌≡◌, ◌<◌, ◌++◌, length, OnOk};
ghost use Rattle.vt_redraw.specs.Sequences.{colour_text, start_palette_text};
ghost use Rattle.vt_redraw.specs.State.{colours_from, palette_text};

use std::alloc::Global;
use vt_base::{Bytes, NoMemory, hex_digit};
use vt_cells::Palette;

/// Adds the palette: that of the start, and then the colours that differ from it.
pub(crate) fn add_palette(
    alloc: Global,
    text: &mut Bytes,
    palette: &Palette,
) -> Result<(), NoMemory>
    ensures { OnOk result (text.new.bytes ≡ text.old.bytes ++ palette_text palette.now) }
{
    add_start(alloc, text)?;
    add_colours(alloc, text, Palette::start().as_slice(), palette.as_slice())
}

#[tactic(auto, unfolding(crate::specs::Sequences::start_palette_text))]
fn add_start(alloc: Global, text: &mut Bytes) -> Result<(), NoMemory>
    ensures { OnOk result (text.new.bytes ≡ text.old.bytes ++ start_palette_text) }
{
    text.add(alloc, b"\x1b]R")
}

// Adds the colours that differ from those at the start, by their numbers.
fn add_colours(
    alloc: Global,
    text: &mut Bytes,
    starts: &[(u8, u8, u8)],
    colours: &[(u8, u8, u8)],
) -> Result<(), NoMemory>
    requires many { length colours.now ≡ 16 }
    requires same { length starts.now ≡ 16 }
    ensures { OnOk result (text.new.bytes
        ≡ text.old.bytes ++ colours_from 0 starts.now colours.now) }
{
    for n in 0..16 {
        if starts[n] != colours[n] {
            add_colour(alloc, text, n as u8, colours[n])?;
        }
    }
    Ok(())
}

// Adds a colour by its number.
#[tactic(auto, unfolding(crate::specs::Sequences::colour_text))]
fn add_colour(alloc: Global, text: &mut Bytes, n: u8, rgb: (u8, u8, u8)) -> Result<(), NoMemory>
    requires { n < 16 }
    ensures { OnOk result (text.new.bytes ≡ text.old.bytes ++ colour_text n rgb) }
{
    let (r, g, b) = rgb;
    text.add(
        alloc,
        &[
            0x1B,
            b']',
            b'P',
            hex_digit(n),
            hex_digit(r / 16),
            hex_digit(r % 16),
            hex_digit(g / 16),
            hex_digit(g % 16),
            hex_digit(b / 16),
            hex_digit(b % 16),
        ],
    )
}
