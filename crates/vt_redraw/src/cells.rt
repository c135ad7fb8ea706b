//! Rows of cells, added to a text.
ghost use Rattle.std.specs.Prelude.{◌≡◌, ◌<◌, ◌≤◌, ◌+◌, ◌++◌, ◌∷◌, ◌&&◌, [], Bool, List, length, nat_lt, OnOk};
ghost use Rattle.vt_redraw.specs.Cells.{byte_change, cells_text, is_ground, row_text};
ghost use Rattle.vt_redraw.specs.Pending.{pending_text, start_of_byte};
ghost use Rattle.vt_redraw.specs.Sequences.{byte_text};
ghost use Rattle.vt_cells.specs.AttrByte.{vga};
ghost use Rattle.vt_cells.specs.declared.cell.Cell.{Cell};
ghost use Rattle.vt_grid.specs.Grid.{row_at};

use crate::pending::Pending;
use crate::sequences::{add_erase, add_place};
use std::alloc::Global;
use vt_base::{Bytes, NoMemory};
use vt_cells::{Cell, HALF};
use vt_grid::Grid;

/// No attribute byte: the pen's isn't known.
const UNKNOWN: u16 = 256;

/// The first code that isn't ASCII.
const ASCII_END: u32 = 128;

/// Adds a row.
pub(crate) fn add_row(alloc: Global, text: &mut Bytes, g: &Grid, y: u8) -> Result<(), NoMemory>
    requires row { y < g.now.rows }
    ensures { OnOk result (text.new.bytes ≡ text.old.bytes ++ row_text y (row_at g.now y)) }
{
    g.stays_full();
    add_place(alloc, text, y, 0)?;
    add_cells(alloc, text, g, y, true)
}

/// Adds the cells of a row, if the pen isn't known, with an erase of a blank end if one is wanted.
pub(crate) fn add_cells(
    alloc: Global,
    text: &mut Bytes,
    g: &Grid,
    y: u8,
    erases: bool,
) -> Result<(), NoMemory>
    requires row { y < g.now.rows }
    ensures { OnOk result (text.new.bytes
        ≡ text.old.bytes ++ cells_text erases 256 (row_at g.now y)) }
{
    g.stays_full();
    let mut pending = Pending::new(UNKNOWN);
    for cell in g.row(y) {
        if pending.attr == u16::from(cell.attr) && cell.code < ASCII_END {
            pending.push_ascii(cell.code as u8);
        } else {
            add_other(alloc, text, &mut pending, cell)?;
        }
    }
    add_last(alloc, text, &mut pending, erases)
}

// Draws a cell that has another byte than the pen, or a character that isn't ASCII.
#[inline(never)]
fn add_other(
    alloc: Global,
    text: &mut Bytes,
    pending: &mut Pending,
    cell: Cell,
) -> Result<(), NoMemory>
    requires other { pending.old.attr ≡ cell.attr → 128 ≤ cell.code }
    requires room { length pending.old.front + pending.old.blanks + 4 ≤ 1020 }
    ensures text { OnOk result ((erases : Bool) (more : List Cell)
        → text.new.bytes ++ pending_text erases pending.new more
        ≡ text.old.bytes ++ pending_text erases pending.old (cell ∷ more)) }
    ensures few { OnOk result (length pending.new.front + pending.new.blanks
        ≤ length pending.old.front + pending.old.blanks + 4) }
{
    pending.settle();
    if cell.code == HALF {
        return Ok(());
    }
    add_change(alloc, text, pending, cell.attr)?;
    pending.push(cell.code);
    Ok(())
}

// Sets the pen's byte after the pending cells, unless it is this one.
fn add_change(alloc: Global, text: &mut Bytes, pending: &mut Pending, b: u8) -> Result<(), NoMemory>
    ensures text { OnOk result (text.new.bytes ++ pending.new.front
        ≡ text.old.bytes ++ (pending.old.front ++ byte_change pending.old.attr b)) }
    ensures attr { OnOk result (pending.new.attr ≡ b) }
    ensures blanks { OnOk result (pending.new.blanks ≡ pending.old.blanks) }
    ensures few { OnOk result (length pending.new.front ≤ length pending.old.front) }
{
    if pending.attr == u16::from(b) {
        return Ok(());
    }
    text.add(alloc, pending.front.as_slice())?;
    add_byte(alloc, text, b)?;
    pending.front.clear();
    pending.attr = u16::from(b);
    Ok(())
}

// Adds the pending cells at the end of a row, with an erase of a blank end if one is wanted.
fn add_last(
    alloc: Global,
    text: &mut Bytes,
    pending: &mut Pending,
    erases: bool,
) -> Result<(), NoMemory>
    requires { length pending.old.front + pending.old.blanks ≤ 1020 }
    ensures { OnOk result (text.new.bytes
        ≡ text.old.bytes ++ pending_text erases pending.old []) }
{
    if ends_with_erase(pending, erases) {
        text.add(alloc, pending.front.as_slice())?;
        add_erase(alloc, text)?;
        return Ok(());
    }
    pending.settle();
    text.add(alloc, pending.front.as_slice())?;
    Ok(())
}

// Whether an erase takes the place of the spaces at the end of the pending cells.
fn ends_with_erase(pending: &Pending, erases: bool) -> bool
    ensures { result
        ≡ (erases && (is_ground pending.now.attr && nat_lt 0 pending.now.blanks)) }
{
    erases && is_ground(pending.attr) && 0 < pending.blanks
}

// Whether the byte is two colours alone: an erase leaves such blanks.
fn is_ground(b: u16) -> bool
    ensures { result ≡ is_ground b }
{
    b / 128 == 0 && b / 8 % 2 == 0
}

// Adds SGR for an attribute byte.
fn add_byte(alloc: Global, text: &mut Bytes, b: u8) -> Result<(), NoMemory>
    ensures { OnOk result (text.new.bytes ≡ text.old.bytes ++ byte_text b) }
{
    let fg = b'0' + vga(b % 8);
    let bg = b'0' + vga(b / 16 % 8);
    text.add(alloc, start_of_byte(b))?;
    text.add(alloc, &[fg, b';', b'4', bg, b'm'])?;
    Ok(())
}

// SGR for an attribute byte up to the digit of its first colour.
fn start_of_byte<'a>(b: u8) -> &'a [u8]
    ensures { result.now ≡ start_of_byte b }
{
    match (b / 8 % 2 == 1, b / 128 == 1) {
        (true, true) => b"\x1b[0;1;5;3",
        (true, false) => b"\x1b[0;1;3",
        (false, true) => b"\x1b[0;5;3",
        (false, false) => b"\x1b[0;3",
    }
}

// The console's number of a colour of VGA, and VGA's of a colour of the console.
fn vga(c: u8) -> u8
    requires { c < 8 }
    ensures value { result ≡ vga c }
    ensures small { result < 8 }
{
    match c {
        1 => 4,
        3 => 6,
        4 => 1,
        6 => 3,
        _ => c,
    }
}
