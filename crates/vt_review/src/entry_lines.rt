//! The lines of an entry for switches, and for one console's bell and rows.
ghost use Rattle.std.specs.Prelude.{◌≡◌, ◌<◌, [], ◌∷◌, ◌++◌, OnOk, map, nat_lt, if◌then◌else◌};
ghost use Rattle.std.specs.List.{flat_map};
ghost use Rattle.vt_review.specs.Announcements.{bell_told, display_told, row_told};
ghost use Rattle.vt_dump.specs.Rows.{row_text};
ghost use Rattle.vt_grid.specs.Grid.{row_at};
ghost use Rattle.vt_review.specs.Lines.{ear_lines, words_of};
ghost use Rattle.vt_switch.specs.Moments.{hops};

use crate::lines::{ROW, add_lines, add_row_line};
use crate::screens::ConsoleScreens;
use crate::{Ear, Listener, Notice};
use std::alloc::Global;
use vt_base::{Bytes, ConsoleNo, NoMemory};
use vt_world::Mark;

/// The kind of a notice that the display came to a console.
const DISPLAY: u8 = 0;

/// The kind of a notice that a bell rang.
const BELL: u8 = 1;

/// Adds the lines for each switch of a trace.
pub(crate) fn tell_hops<F: Listener>(
    alloc: Global,
    text: &mut Bytes,
    ears: &[Ear<F>],
    e: u32,
    trace: &[Mark],
) -> Result<(), NoMemory>
    ensures { OnOk result (text.new.bytes
        ≡ text.old.bytes ++ flat_map (ear_lines 0 e ears.now) (map display_told (hops trace.now))) }
{
    for mark in trace {
        if let Mark::Hopped(hop) = mark {
            add_lines(alloc, text, ears, e, DISPLAY, hop.to, b"\n")?;
        }
    }
    Ok(())
}

/// Adds the lines for the console's bell, if its count rose.
pub(crate) fn tell_bell<F: Listener>(
    alloc: Global,
    text: &mut Bytes,
    ears: &[Ear<F>],
    e: u32,
    console: ConsoleNo,
    before: u32,
    after: u32,
) -> Result<(), NoMemory>
    ensures { OnOk result (text.new.bytes
        ≡ text.old.bytes
        ++ flat_map (ear_lines 0 e ears.now)
        (if nat_lt before after then bell_told console ∷ [] else [])) }
{
    if before < after {
        add_lines(alloc, text, ears, e, BELL, console, b"\n")?;
    }
    Ok(())
}

/// Adds the lines for row `y` of the console's screen after the entry, with these words before the row's number.
pub(crate) fn tell_row<F: Listener>(
    alloc: Global,
    text: &mut Bytes,
    ears: &[Ear<F>],
    rows: &ConsoleScreens<'_>,
    words: &[u8],
    y: u8,
) -> Result<(), NoMemory>
    requires row { y < rows.now.after.now.rows }
    requires words { words.now ≡ words_of rows.now.place ROW rows.now.console }
    ensures { OnOk result (text.new.bytes
        ≡ text.old.bytes
        ++ ear_lines 0 rows.now.place ears.now
        (row_told rows.now.console y (row_text (row_at rows.now.after.now y)))) }
{
    let console = rows.console;
    for a in 0..ears.len() {
        if ears[a].ask(Notice { kind: ROW, console }) {
            add_row_line(alloc, text, a, words, rows.after, y)?;
        }
    }
    Ok(())
}
