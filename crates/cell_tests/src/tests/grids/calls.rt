//! The calls of a grid, each made only if it stays in the grid.
use super::edit::Edit;
use super::letter;
use vt_base::Size;
use vt_cells::Cell;
use vt_grid::Grid;

/// The cell in row `y` and column `x`, if there is one.
pub(crate) fn cell(grid: &Grid, y: u8, x: u8) -> Option<Cell> {
    let Size { rows, cols } = grid.size();
    if y < rows && x < cols {
        Some(grid.at(y, x))
    } else {
        None
    }
}

/// The code of that cell.
pub(crate) fn code(grid: &Grid, y: u8, x: u8) -> Option<u32> {
    match cell(grid, y, x) {
        Some(cell) => Some(cell.code),
        None => None,
    }
}

/// Makes the edit, and returns whether it stays in the grid: an edit that doesn't isn't made.
pub(crate) fn make(grid: &mut Grid, edit: Edit) -> bool {
    let Size { rows, cols } = grid.size();
    let most = usize::from(cols);
    let fill = letter(b'-');
    match edit {
        Edit::Put(y, x, code, attr) if y < rows && x < cols => grid.put(y, x, Cell { code, attr }),
        Edit::Fill => grid.fill(fill),
        Edit::Bytes(y, x, text) if y < rows && usize::from(x) + text.len() <= most => {
            grid.draw_bytes(y, x, text, 0x07);
        }
        Edit::Codes(y, x, text) if y < rows && usize::from(x) + text.len() <= most => {
            grid.draw_codes(y, x, text, 0x07);
        }
        Edit::Part(y, x) if y < rows && x <= cols => grid.part(y, x),
        Edit::Up(top, bottom, n) if top <= bottom && bottom < rows => {
            grid.scroll_up(top, bottom, n, fill);
        }
        Edit::Down(top, bottom, n) if top <= bottom && bottom < rows => {
            grid.scroll_down(top, bottom, n, fill);
        }
        Edit::Erase(y, x0, x1) if y < rows && x0 <= x1 && x1 < cols => grid.erase(y, x0, x1, fill),
        Edit::Insert(y, x, n) if y < rows && x < cols => grid.insert(y, x, n, fill),
        Edit::Delete(y, x, n) if y < rows && x < cols => grid.delete(y, x, n, fill),
        _ => return false,
    }
    true
}

pub(crate) fn is_row_same(grid: &Grid, other: &Grid, y: u8) -> bool {
    y < grid.size().rows && y < other.size().rows && grid.is_row_same(other, y)
}

pub(crate) fn copy_from(grid: &mut Grid, other: &Grid) -> bool {
    let size = grid.size();
    let fresh = other.size();
    let stays = size.rows == fresh.rows && size.cols == fresh.cols;
    if stays {
        grid.copy_from(other);
    }
    stays
}
