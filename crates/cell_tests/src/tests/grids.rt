//! Scrolls of a region of a grid up and down, with the letters of its rows after each.
mod calls;
mod changes;
mod edit;
mod edits;
mod halves;
mod row_edits;
mod stores;

use super::checks::check_made;
use edit::Edit;
use std::alloc::Global;
use vt_base::{NoMemory, Size};
use vt_cells::Cell;
use vt_grid::Grid;

const SIZE: Size = Size { rows: 4, cols: 3 };

fn letter(code: u8) -> Cell {
    Cell {
        code: u32::from(code),
        attr: 0x07,
    }
}

// A grid whose rows begin with a, b, c and d.
fn lettered(alloc: Global) -> Result<Grid, NoMemory> {
    let mut grid = Grid::blank(alloc, SIZE, letter(b' '))?;
    for (y, code) in [(0, b'a'), (1, b'b'), (2, b'c'), (3, b'd')] {
        let _ = calls::make(&mut grid, Edit::Put(y, 0, u32::from(code), 0x07));
    }
    Ok(grid)
}

fn has_column(grid: &Grid, codes: &[u8; 4]) -> bool {
    for (y, code) in [(0, codes[0]), (1, codes[1]), (2, codes[2]), (3, codes[3])] {
        if calls::code(grid, y, 0) != Some(u32::from(code)) {
            return false;
        }
    }
    true
}

// The first and last row of a region, by how much it scrolls, and then the first column.
type Scroll = (u8, u8, u16, [u8; 4]);

const SCROLLS: &[Scroll] = &[
    (0, 3, 1, *b"bcd-"),
    (0, 3, 0, *b"abcd"),
    (0, 3, 4, *b"----"),
    (0, 3, 65_535, *b"----"),
    (1, 2, 1, *b"ac-d"),
    (2, 3, 1, *b"abd-"),
    (1, 1, 9, *b"a-cd"),
];

fn is_scrolled(alloc: Global, case: &Scroll) -> Result<bool, NoMemory> {
    let (top, bottom, n, codes) = *case;
    let mut grid = lettered(alloc)?;
    Ok(calls::make(&mut grid, Edit::Up(top, bottom, n)) && has_column(&grid, &codes))
}

#[test]
fn scrolls_a_region(rt: HostRuntime) {
    for case in SCROLLS {
        check_made(&rt, is_scrolled(rt.alloc(), case), &case.3);
    }
}
