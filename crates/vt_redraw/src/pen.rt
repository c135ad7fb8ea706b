//! Pens, added to a text.
ghost use Rattle.std.specs.Prelude.{◌≡◌, ◌<◌, ◌++◌, OnOk};
ghost use Rattle.vt_redraw.specs.State.{attributes_text, colours_text, intensity_number, mapping_text, pen_text, tables_text};

use crate::sequences::{add_g0, add_g1, add_mode, add_sequence, add_shift};
use std::alloc::Global;
use vt_base::{Bytes, NoMemory};
use vt_cells::{Attr, Intensity};
use vt_screen::ScreenState;
use vt_sgr::Pen;

/// Adds SGR with a number for each attribute.
#[tactic(auto, unfolding(crate::specs::State::attributes_text))]
pub(crate) fn add_attributes(alloc: Global, text: &mut Bytes, a: &Attr) -> Result<(), NoMemory>
    ensures { OnOk result (text.new.bytes ≡ text.old.bytes ++ attributes_text a.now) }
{
    let others = [
        40 + a.bg,
        intensity_number(a.intensity),
        if a.italic { 3 } else { 23 },
        if a.underline { 4 } else { 24 },
        if a.blink { 5 } else { 25 },
        if a.reverse { 7 } else { 27 },
    ];
    add_sequence(alloc, text, 30 + a.fg, &others, b'm')
}

fn intensity_number(intensity: Intensity) -> u8
    ensures { result ≡ intensity_number intensity }
{
    match intensity {
        Intensity::Dim => 2,
        Intensity::Normal => 22,
        Intensity::Bold => 1,
    }
}

/// Adds G0, G1 and the number of the one in use.
#[tactic(auto, unfolding(crate::specs::State::tables_text))]
pub(crate) fn add_tables(
    alloc: Global,
    text: &mut Bytes,
    g0: u8,
    g1: u8,
    shift: u8,
) -> Result<(), NoMemory>
    ensures { OnOk result (text.new.bytes ≡ text.old.bytes ++ tables_text g0 g1 shift) }
{
    add_g0(alloc, text, g0)?;
    add_g1(alloc, text, g1)?;
    add_shift(alloc, text, shift)?;
    add_mode(alloc, text, 3, false)
}

/// Adds the pen, the tables, and whether control characters are shown.
pub(crate) fn add_pen(alloc: Global, text: &mut Bytes, s: &ScreenState) -> Result<(), NoMemory>
    ensures { OnOk result (text.new.bytes ≡ text.old.bytes ++ pen_text s.now) }
{
    add_colours(alloc, text, &s.pen)?;
    add_attributes(alloc, text, &s.pen.attr)?;
    add_tables(alloc, text, s.g0, s.g1, s.shift)?;
    add_mapping(alloc, text, s.pen.alt, s.pen.toggle)?;
    add_mode(alloc, text, 3, s.pen.display)
}

// Adds the colours for underline and half-bright, and the default pair.
fn add_colours(alloc: Global, text: &mut Bytes, p: &Pen) -> Result<(), NoMemory>
    ensures { OnOk result (text.new.bytes ≡ text.old.bytes ++ colours_text p.now) }
{
    let p = *p;
    add_sequence(alloc, text, 1, &[p.look.ul], b']')?;
    add_sequence(alloc, text, 2, &[p.look.dim], b']')?;
    add_sequence(alloc, text, 30 + p.def_fg, &[40 + p.def_bg], b'm')?;
    add_sequence(alloc, text, 8, &[], b']')
}

#[tactic(auto, unfolding(crate::specs::State::mapping_text))]
fn add_mapping(alloc: Global, text: &mut Bytes, alt: bool, toggle: bool) -> Result<(), NoMemory>
    ensures { OnOk result (text.new.bytes ≡ text.old.bytes ++ mapping_text alt toggle) }
{
    if !alt {
        return Ok(());
    }
    add_sequence(alloc, text, if toggle { 12 } else { 11 }, &[], b'm')
}
