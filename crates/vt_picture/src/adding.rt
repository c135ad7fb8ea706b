//! Parts of the picture's text, each added at its end.
ghost use Rattle.std.specs.Prelude.{◌≡◌, ◌++◌, OnOk};
ghost use Rattle.vt_picture.specs.Svg.{fill_attribute, hex_pair, number_attribute, rectangle};

use std::alloc::Global;
use vt_base::{Bytes, NoMemory, hex_digit};

/// Adds the attribute of this name, whose value is the number.
#[tactic(auto, unfolding(crate::specs::Svg::number_attribute))]
pub(crate) fn add_numbered(
    alloc: Global,
    text: &mut Bytes,
    name: &[u8],
    n: u16,
) -> Result<(), NoMemory>
    ensures { OnOk result (text.new.bytes ≡ text.old.bytes ++ number_attribute name.now n) }
{
    text.add(alloc, b" ")?;
    text.add(alloc, name)?;
    text.add(alloc, b"='")?;
    text.add_decimal(alloc, u64::from(n))?;
    text.add(alloc, b"'")
}

/// Adds the attribute that fills with the colour.
#[tactic(auto, unfolding(crate::specs::Svg::fill_attribute))]
pub(crate) fn add_filled_with(
    alloc: Global,
    text: &mut Bytes,
    colour: (u8, u8, u8),
) -> Result<(), NoMemory>
    ensures { OnOk result (text.new.bytes ≡ text.old.bytes ++ fill_attribute colour) }
{
    text.add(alloc, b" fill='#")?;
    add_hex_pair(alloc, text, colour.0)?;
    add_hex_pair(alloc, text, colour.1)?;
    add_hex_pair(alloc, text, colour.2)?;
    text.add(alloc, b"'")
}

/// Adds a rectangle.
#[tactic(auto, unfolding(crate::specs::Svg::rectangle))]
pub(crate) fn add_rectangle(
    alloc: Global,
    text: &mut Bytes,
    x: u16,
    y: u16,
    width: u16,
    height: u16,
    colour: (u8, u8, u8),
) -> Result<(), NoMemory>
    ensures { OnOk result
        (text.new.bytes ≡ text.old.bytes ++ rectangle x y width height colour) }
{
    text.add(alloc, b"<rect")?;
    add_numbered(alloc, text, b"x", x)?;
    add_numbered(alloc, text, b"y", y)?;
    add_numbered(alloc, text, b"width", width)?;
    add_numbered(alloc, text, b"height", height)?;
    add_filled_with(alloc, text, colour)?;
    text.add(alloc, b"/>\n")
}

#[tactic(auto, unfolding(crate::specs::Svg::hex_pair))]
fn add_hex_pair(alloc: Global, text: &mut Bytes, b: u8) -> Result<(), NoMemory>
    ensures { OnOk result (text.new.bytes ≡ text.old.bytes ++ hex_pair b) }
{
    text.add(alloc, &[hex_digit(b / 16), hex_digit(b % 16)])
}
