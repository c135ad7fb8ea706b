//! Which rows a scroll changed, and a copy of the grid.
use super::edit::Edit;
use super::{calls, has_column, lettered};
use crate::tests::checks::check_made;
use std::alloc::Global;
use vt_base::NoMemory;
use vt_grid::Grid;

// The first and last row of a region, by how much it scrolls, then the first column, and which rows are
// unchanged.
type Change = (u8, u8, u16, [u8; 4], [bool; 4]);

const CHANGES: &[Change] = &[
    (0, 3, 0, *b"abcd", [true, true, true, true]),
    (0, 3, 1, *b"bcd-", [false, false, false, false]),
    (1, 2, 1, *b"ac-d", [true, false, false, true]),
    (1, 1, 9, *b"a-cd", [true, false, true, true]),
];

fn are_same(grid: &Grid, other: &Grid, same: [bool; 4]) -> bool {
    for y in 0..4 {
        if calls::is_row_same(grid, other, y) != same[usize::from(y)] {
            return false;
        }
    }
    true
}

fn is_told(alloc: Global, case: &Change) -> Result<bool, NoMemory> {
    let (top, bottom, n, codes, same) = *case;
    let mut shown = lettered(alloc)?;
    let mut grid = lettered(alloc)?;
    Ok(
        calls::make(&mut grid, Edit::Up(top, bottom, n))
            && are_same(&shown, &grid, same)
            && calls::copy_from(&mut shown, &grid)
            && are_same(&shown, &grid, [true; 4])
            && has_column(&shown, &codes),
    )
}

#[test]
fn changed_rows_are_told(rt: HostRuntime) {
    for case in CHANGES {
        check_made(&rt, is_told(rt.alloc(), case), &case.3);
    }
}
