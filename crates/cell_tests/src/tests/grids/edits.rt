//! Edits of a grid one after another, and its rows after each. They are computed by hand, row by row.
use super::edit::Edit;
use super::edit::Edit::{Bytes, Codes, Delete, Down, Erase, Insert, Put, Up};
use super::{calls, letter};
use crate::tests::checks::{check, check_made};
use std::alloc::Global;
use std::process::Abort;
use vt_base::{NoMemory, Size};
use vt_grid::Grid;

const SIZE: Size = Size { rows: 5, cols: 7 };

// An edit, and the rows after it, from top to bottom.
type Edited = (Edit, &'static str);

const EDITS: &[Edited] = &[
    (
        Put(0, 3, 0x41, 0x07),
        "   A   /       /       /       /       ",
    ),
    (
        Bytes(1, 2, b"hello"),
        "   A   /  hello/       /       /       ",
    ),
    (
        Codes(4, 0, &[0x2588, 0x10FFFF]),
        "   A   /  hello/       /       /\u{2588}\u{10FFFF}     ",
    ),
    (
        Up(0, 4, 1),
        "  hello/       /       /\u{2588}\u{10FFFF}     /-------",
    ),
    (
        Bytes(4, 0, b"abcde"),
        "  hello/       /       /\u{2588}\u{10FFFF}     /abcde--",
    ),
    (
        Put(4, 6, 0x42, 0x07),
        "  hello/       /       /\u{2588}\u{10FFFF}     /abcde-B",
    ),
    (
        Up(1, 3, 1),
        "  hello/       /\u{2588}\u{10FFFF}     /-------/abcde-B",
    ),
    (
        Put(3, 5, 0x43, 0x07),
        "  hello/       /\u{2588}\u{10FFFF}     /-----C-/abcde-B",
    ),
    (
        Bytes(3, 1, b"vwxyz"),
        "  hello/       /\u{2588}\u{10FFFF}     /-vwxyz-/abcde-B",
    ),
    (Up(0, 4, 3), "-vwxyz-/abcde-B/-------/-------/-------"),
    (Up(2, 4, 2), "-vwxyz-/abcde-B/-------/-------/-------"),
    (
        Codes(2, 5, &[0x7A, 0x79]),
        "-vwxyz-/abcde-B/-----zy/-------/-------",
    ),
    (
        Bytes(2, 1, b"small"),
        "-vwxyz-/abcde-B/-smally/-------/-------",
    ),
    (Up(0, 2, 2), "-smally/-------/-------/-------/-------"),
    (
        Bytes(1, 0, b"oneline"),
        "-smally/oneline/-------/-------/-------",
    ),
    (Up(1, 1, 1), "-smally/-------/-------/-------/-------"),
    (Up(0, 4, 9), "-------/-------/-------/-------/-------"),
    (
        Put(2, 2, 0x44, 0x07),
        "-------/-------/--D----/-------/-------",
    ),
    (
        Bytes(1, 1, b"lower"),
        "-------/-lower-/--D----/-------/-------",
    ),
    (Down(0, 4, 1), "-------/-------/-lower-/--D----/-------"),
    (
        Bytes(4, 0, b"bottom!"),
        "-------/-------/-lower-/--D----/bottom!",
    ),
    (Down(1, 3, 1), "-------/-------/-------/-lower-/bottom!"),
    (Erase(3, 2, 4), "-------/-------/-------/-l---r-/bottom!"),
    (Erase(4, 3, 6), "-------/-------/-------/-l---r-/bot----"),
    (Insert(3, 1, 2), "-------/-------/-------/---l---/bot----"),
    (Delete(4, 0, 1), "-------/-------/-------/---l---/ot-----"),
    (
        Bytes(3, 2, b"again"),
        "-------/-------/-------/--again/ot-----",
    ),
    (Insert(3, 3, 9), "-------/-------/-------/--a----/ot-----"),
    (Delete(3, 0, 2), "-------/-------/-------/a------/ot-----"),
    (
        Put(4, 6, 0x45, 0x07),
        "-------/-------/-------/a------/ot----E",
    ),
    (Delete(4, 6, 1), "-------/-------/-------/a------/ot-----"),
    (Down(2, 4, 9), "-------/-------/-------/-------/-------"),
];

fn code_of(character: Option<char>) -> Option<u32> {
    match character {
        Some(c) => Some(c as u32),
        None => None,
    }
}

fn has_rows(grid: &Grid, rows: &str) -> bool {
    let mut characters = rows.chars();
    for y in 0..5 {
        for x in 0..7 {
            if calls::code(grid, y, x) != code_of(characters.next()) {
                return false;
            }
        }
        let _slash = characters.next();
    }
    true
}

fn check_edits(by: &impl Abort, grid: &mut Grid) {
    for (edit, rows) in EDITS {
        check(by, calls::make(grid, *edit) && has_rows(grid, rows), rows);
    }
}

fn check_grid(by: &impl Abort, alloc: Global) -> Result<bool, NoMemory> {
    let mut grid = Grid::blank(alloc, SIZE, letter(b' '))?;
    check_edits(by, &mut grid);
    Ok(true)
}

#[test]
fn edits_leave_their_rows(rt: HostRuntime) {
    check_made(&rt, check_grid(&rt, rt.alloc()), "a grid");
}
