//! Edits of one row (bytes, insert, delete, erase), and new sizes of a grid, with the rows after each.
use super::edit::Edit;
use super::edit::Edit::{Bytes, Delete, Erase, Insert};
use super::{calls, letter};
use crate::tests::checks::check_made;
use std::alloc::Global;
use vt_base::{NoMemory, Size};
use vt_grid::Grid;

// Whether row y has these bytes; 0 is a place outside the grid.
fn has_row(grid: &Grid, y: u8, bytes: &[u8; 6]) -> bool {
    for x in 0..6 {
        if calls::code(grid, y, x) != code_of(bytes[usize::from(x)]) {
            return false;
        }
    }
    true
}

fn code_of(byte: u8) -> Option<u32> {
    if byte == 0 {
        None
    } else {
        Some(u32::from(byte))
    }
}

// A grid of these two rows; cells past a row's text are blank.
fn of_rows(
    alloc: Global,
    cols: u8,
    first: &'static [u8],
    second: &'static [u8],
) -> Result<Grid, NoMemory> {
    let size = Size {
        rows: 2,
        cols: cols.max(1),
    };
    let mut grid = Grid::blank(alloc, size, letter(b' '))?;
    let _ = calls::make(&mut grid, Bytes(0, 0, first));
    let _ = calls::make(&mut grid, Bytes(1, 0, second));
    Ok(grid)
}

const WHOLE: &[u8] = b"abcdef";

const SHORT: &[u8] = b"ab";

// How the first row begins, an edit of it, and then that row.
type Edited = (&'static [u8], Edit, [u8; 6]);

const EDITED: &[Edited] = &[
    (WHOLE, Insert(0, 2, 1), *b"ab-cde"),
    (WHOLE, Insert(0, 0, 2), *b"--abcd"),
    (WHOLE, Insert(0, 5, 1), *b"abcde-"),
    (WHOLE, Insert(0, 4, 65_535), *b"abcd--"),
    (WHOLE, Insert(0, 1, 0), *b"abcdef"),
    (SHORT, Insert(0, 1, 2), *b"a--b  "),
    (SHORT, Insert(0, 4, 1), *b"ab  - "),
    (WHOLE, Delete(0, 0, 1), *b"bcdef-"),
    (WHOLE, Delete(0, 2, 2), *b"abef--"),
    (WHOLE, Delete(0, 3, 65_535), *b"abc---"),
    (WHOLE, Delete(0, 5, 0), *b"abcdef"),
    (SHORT, Delete(0, 1, 1), *b"a    -"),
    (SHORT, Delete(0, 4, 2), *b"ab  --"),
    (WHOLE, Erase(0, 0, 0), *b"-bcdef"),
    (WHOLE, Erase(0, 2, 3), *b"ab--ef"),
    (WHOLE, Erase(0, 0, 5), *b"------"),
    (SHORT, Erase(0, 3, 3), *b"ab -  "),
    (SHORT, Erase(0, 4, 5), *b"ab  --"),
];

fn is_edited(alloc: Global, case: &Edited) -> Result<bool, NoMemory> {
    let (text, edit, wanted) = *case;
    let mut grid = of_rows(alloc, 6, text, b"ghijkl")?;
    let stays = calls::make(&mut grid, edit);
    Ok(stays && has_row(&grid, 0, &wanted) && has_row(&grid, 1, b"ghijkl"))
}

#[test]
fn edits_one_row(rt: HostRuntime) {
    for case in EDITED {
        check_made(&rt, is_edited(rt.alloc(), case), &case.2);
    }
}

const NONE: [u8; 6] = [0; 6];

// The rows and columns of a new size, how many rows are left out, and then the rows.
type Resize = (u8, u8, u8, [[u8; 6]; 3]);

const RESIZES: &[Resize] = &[
    (1, 3, 1, [*b"fgh\0\0\0", NONE, NONE]),
    (3, 6, 0, [*b"abcde-", *b"fghij-", *b"------"]),
    (3, 6, 1, [*b"fghij-", *b"------", *b"------"]),
    (2, 5, 9, [*b"-----\0", *b"-----\0", NONE]),
];

// Makes the grid of this size, and gives the old one.
fn resized(alloc: Global, grid: &mut Grid, size: Size, skip: u8) -> Result<Grid, NoMemory> {
    let fresh = Grid::blank(alloc, size, letter(b'-'))?;
    Ok(grid.resized_into(fresh, skip))
}

fn has_rows(grid: &Grid, rows: &[[u8; 6]; 3]) -> bool {
    has_row(grid, 0, &rows[0]) && has_row(grid, 1, &rows[1]) && has_row(grid, 2, &rows[2])
}

// Whether the rows are these, and the old grid comes back.
fn is_resized(alloc: Global, case: &Resize) -> Result<bool, NoMemory> {
    let (rows, cols, skip, wanted) = *case;
    let size = Size {
        rows: rows.max(1),
        cols: cols.max(1),
    };
    let mut grid = of_rows(alloc, 5, b"abcde", b"fghij")?;
    let was = resized(alloc, &mut grid, size, skip)?;
    Ok(has_rows(&grid, &wanted) && has_row(&was, 0, b"abcde\0") && has_row(&was, 1, b"fghij\0"))
}

#[test]
fn keeps_what_fits_the_new_size(rt: HostRuntime) {
    for case in RESIZES {
        check_made(&rt, is_resized(rt.alloc(), case), &case.3[0]);
    }
}
