//! Halves of wide characters: where a grid parts them, what is drawn over one, and what a new size leaves of them.
use super::calls;
use super::edit::Edit;
use crate::tests::checks::check_made;
use std::alloc::Global;
use vt_base::{NoMemory, Size};
use vt_cells::{Cell, HALF};
use vt_dump::text_row;
use vt_grid::Grid;

fn of(code: u32, attr: u8) -> Cell {
    Cell { code, attr }
}

// A column, and the code and the attribute byte of its cell.
const BEGUN: &[(u8, u32, u8)] = &[(0, 0x4E2D, 0x01), (1, HALF, 0x02), (2, 0x61, 0x03)];

// A row that begins with a Han character, its halves in two colours, and a letter.
fn row(alloc: Global) -> Result<Grid, NoMemory> {
    let mut grid = Grid::blank(alloc, Size { rows: 2, cols: 4 }, of(0x20, 0x07))?;
    for (x, code, attr) in BEGUN {
        let _ = calls::make(&mut grid, Edit::Put(0, *x, *code, *attr));
    }
    Ok(grid)
}

// Whether the first row is printed so. If memory ran out, it isn't.
fn shows(alloc: Global, grid: &Grid, wanted: &str) -> bool {
    let _ = grid.size();
    match text_row(alloc, grid, 0) {
        Ok(row) => row.as_slice() == wanted.as_bytes(),
        Err(NoMemory) => false,
    }
}

// The columns at which the row is split, one after another, and the row after each.
const PARTED: &[(u8, &str)] = &[
    (0, "|\u{4E2D}a |\n"),
    (2, "|\u{4E2D}a |\n"),
    (4, "|\u{4E2D}a |\n"),
    (1, "|  a |\n"),
];

// Whether the edit is made, and the row is then so.
fn is_edited(alloc: Global, grid: &mut Grid, edit: Edit, wanted: &str) -> bool {
    calls::make(grid, edit) && shows(alloc, grid, wanted)
}

// Whether the halves still have their colours after all edits.
fn is_parted(alloc: Global, grid: &mut Grid) -> bool {
    for (x, wanted) in PARTED {
        if !is_edited(alloc, grid, Edit::Part(0, *x), wanted) {
            return false;
        }
    }
    calls::cell(grid, 0, 0) == Some(of(0x20, 0x01))
        && calls::cell(grid, 0, 1) == Some(of(0x20, 0x02))
}

fn are_parted(alloc: Global) -> Result<bool, NoMemory> {
    let mut grid = row(alloc)?;
    Ok(is_parted(alloc, &mut grid))
}

#[test]
fn parts_at_a_half_alone(rt: HostRuntime) {
    check_made(&rt, are_parted(rt.alloc()), "parts");
}

// A byte and a character that are drawn over a half, and the row after each.
const DRAWN: &[(Edit, &str)] = &[
    (Edit::Bytes(0, 1, b"x"), "| xa |\n"),
    (Edit::Codes(0, 0, &[0xE9]), "|\u{E9} a |\n"),
];

fn draws(alloc: Global, edit: Edit, wanted: &str) -> Result<bool, NoMemory> {
    let mut grid = row(alloc)?;
    Ok(is_edited(alloc, &mut grid, edit, wanted))
}

#[test]
fn draws_over_a_half(rt: HostRuntime) {
    for (edit, wanted) in DRAWN {
        check_made(&rt, draws(rt.alloc(), *edit, wanted), *wanted);
    }
}

// The edits of a row after a Han character is drawn in it, on a grid that had no half, and the row after them.
const DRAWN_FIRST: &[(Edit, &str)] = &[
    (Edit::Part(0, 1), "|    |\n"),
    (Edit::Bytes(0, 1, b"x"), "| x  |\n"),
    (Edit::Codes(0, 0, &[0xE9]), "|\u{E9}   |\n"),
    (Edit::Fill, "|----|\n"),
];

// Whether the row is so, on a grid that was filled before the character was drawn.
fn parts_a_drawn_half(alloc: Global, edit: Edit, wanted: &str) -> Result<bool, NoMemory> {
    let mut grid = row(alloc)?;
    grid.fill(of(0x20, 0x07));
    let drawn = calls::make(&mut grid, Edit::Codes(0, 0, &[0x4E2D, HALF]));
    Ok(drawn && is_edited(alloc, &mut grid, edit, wanted))
}

#[test]
fn parts_a_half_that_was_drawn(rt: HostRuntime) {
    for (edit, wanted) in DRAWN_FIRST {
        check_made(&rt, parts_a_drawn_half(rt.alloc(), *edit, wanted), *wanted);
    }
}

const SMALL: Size = Size { rows: 1, cols: 1 };

// Whether the row's first column alone shows so, and the old row comes back.
fn is_resized(alloc: Global, is_parted: bool, wanted: &str) -> Result<bool, NoMemory> {
    let mut grid = row(alloc)?;
    let old = resized(alloc, &mut grid, is_parted)?;
    Ok(shows(alloc, &grid, wanted) && shows(alloc, &old, "|\u{4E2D}a |\n"))
}

fn resized(alloc: Global, grid: &mut Grid, is_parted: bool) -> Result<Grid, NoMemory> {
    let fresh = Grid::blank(alloc, SMALL, of(0x20, 0x07))?;
    if is_parted {
        Ok(grid.resized_parted_into(fresh, 0))
    } else {
        Ok(grid.resized_into(fresh, 0))
    }
}

#[test]
fn a_resize_parts_where_it_is_asked_to(rt: HostRuntime) {
    check_made(&rt, is_resized(rt.alloc(), true, "| |\n"), "parted");
    check_made(&rt, is_resized(rt.alloc(), false, "|\u{4E2D}|\n"), "whole");
}
