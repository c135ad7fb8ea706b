//! The rows of a screen, compared with those of one before.
ghost use Rattle.std.specs.Prelude.{◌≡◌, ◌<◌, ◌≤◌, ◌++◌, ℕ, not, true, false, bytes_eq, IfOk, OnOk, map, option_copied, slice_get};
ghost use Rattle.std.specs.List.{flat_map};
ghost use Rattle.vt_dump.specs.Rows.{row_text};
ghost use Rattle.vt_grid.specs.Grid.{row_at};
ghost use Rattle.vt_review.specs.Announcements.{is_text, new_rows};
ghost use Rattle.vt_review.specs.Lines.{ear_lines, words_of};
ghost use Rattle.vt_review.specs.Screens.{OthersAreOld, row_notice, texts_of};

use crate::entry_lines::tell_row;
use crate::lines::{ROW, row_words};
use crate::{Ear, Listener};
use std::alloc::Global;
use vt_base::{Bytes, ConsoleNo, NoMemory};
use vt_dump::{is_own_byte, text_row};
use vt_grid::Grid;

/// How many cells of a row are compared first if the row above is new: if rows scroll, they mostly differ in one of
/// them.
const FEW_CELLS: u8 = 8;

/// The screens of a console before and after the entry at a place; none before if the console wasn't allocated.
#[derive(Clone, Copy)]
pub(crate) struct ConsoleScreens<'a> {
    pub place: u32,
    pub console: ConsoleNo,
    pub before: Option<&'a Grid>,
    pub after: &'a Grid,
}

/// Adds the lines for the rows of the console's screen that aren't rows of the screen before. Only the rows from
/// `first` to `last` may be.
pub(crate) fn tell_rows<F: Listener>(
    alloc: Global,
    text: &mut Bytes,
    ears: &[Ear<F>],
    rows: &ConsoleScreens<'_>,
    first: u8,
    last: u8,
) -> Result<(), NoMemory>
    requires { OthersAreOld first last (texts_of (option_copied rows.now.before)) rows.now.after.now }
    ensures { OnOk result (text.new.bytes
        ≡ text.old.bytes
        ++ flat_map (ear_lines 0 rows.now.place ears.now)
        (new_rows rows.now.console (texts_of (option_copied rows.now.before)) 0
        (map row_text rows.now.after.now.cells))) }
{
    rows.after.stays_full();
    let words = row_words(alloc, rows.place, rows.console)?;
    let mut most = if last == u8::MAX { 0 } else { u8::MAX };
    for y in first..end_of(last, rows.after.size().rows) {
        let new = tell_if_new(alloc, text, ears, rows, words.as_slice(), y, most)?;
        most = if new { FEW_CELLS } else { 0 };
    }
    Ok(())
}

// Adds the lines for the row at `y`, if it is new, and returns whether it is.
fn tell_if_new<F: Listener>(
    alloc: Global,
    text: &mut Bytes,
    ears: &[Ear<F>],
    rows: &ConsoleScreens<'_>,
    words: &[u8],
    y: u8,
    most: u8,
) -> Result<bool, NoMemory>
    requires row { y < rows.now.after.now.rows }
    requires words { words.now ≡ words_of rows.now.place ROW rows.now.console }
    ensures { OnOk result (text.new.bytes
        ≡ text.old.bytes
        ++ flat_map (ear_lines 0 rows.now.place ears.now)
        (row_notice rows.now.console (texts_of (option_copied rows.now.before)) y
        (row_text (row_at rows.now.after.now y)))) }
{
    if !is_new(alloc, rows.before, rows.after, y, most)? {
        return Ok(false);
    }
    tell_row(alloc, text, ears, rows, words, y)?;
    Ok(true)
}

// The number after the last one, of so many rows.
fn end_of(last: u8, rows: u8) -> u8
    ensures most { result ≤ rows }
    ensures last { (y : ℕ) → result ≤ y → y < rows → last < y }
{
    if last < rows { last + 1 } else { rows }
}

// Whether the text of the row at `y` is new. Of its cells, so many are compared first.
fn is_new(
    alloc: Global,
    before: Option<&Grid>,
    after: &Grid,
    y: u8,
    most: u8,
) -> Result<bool, NoMemory>
    requires { y < after.now.rows }
    ensures { IfOk result (λ new.
        is_text (slice_get (texts_of (option_copied before.entry)) y) (row_text (row_at after.now y)) ≡ not new) }
{
    match before {
        Some(before) if y < before.size().rows => has_other_text(alloc, before, after, y, most),
        _ => Ok(true),
    }
}

// Whether the text of the row at `y` differs from that of the row there before. So many cells are compared first.
fn has_other_text(
    alloc: Global,
    before: &Grid,
    after: &Grid,
    y: u8,
    most: u8,
) -> Result<bool, NoMemory>
    requires was { y < before.now.rows }
    requires is { y < after.now.rows }
    ensures { IfOk result (λ other.
        bytes_eq (row_text (row_at before.now y)) (row_text (row_at after.now y)) ≡ not other) }
{
    if differs_within(before, after, y, most) {
        return Ok(true);
    }
    if before.is_row_same(after, y) {
        return Ok(false);
    }
    if differs_within(before, after, y, u8::MAX) {
        return Ok(true);
    }
    let old = text_row(alloc, before, y)?;
    let new = text_row(alloc, after, y)?;
    Ok(old.as_slice() != new.as_slice())
}

// Whether the first cell of the row that has another code than before is among so many, and both are printable
// characters of ASCII: then the texts differ.
fn differs_within(before: &Grid, after: &Grid, y: u8, most: u8) -> bool
    requires was { y < before.now.rows }
    requires is { y < after.now.rows }
    ensures { result ≡ true → bytes_eq (row_text (row_at before.now y)) (row_text (row_at after.now y)) ≡ false }
{
    let mut was = before.row(y);
    let mut is = after.row(y);
    'cells: for _ in 0..most {
        match (was.next(), is.next()) {
            (Some(old), Some(new)) => {
                if old.code != new.code {
                    return is_own_byte(old) && is_own_byte(new);
                }
            }
            _ => return false,
        }
    }
    false
}
