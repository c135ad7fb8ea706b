//! The edits of a grid, on its stored rows.
ghost use Rattle.std.specs.List.{list_all};
ghost use Rattle.std.specs.Prelude.{◌≡◌, ◌+◌, ◌-◌, ◌<◌, ◌≤◌, ◌==◌, length, map, not, replicate, take, true};
ghost use Rattle.vt_cells.specs.Width.{half};
ghost use Rattle.vt_grid.specs.Grid.{HasPlace, HasCells, with_deleted, with_erased, filled_grid, with_inserted, row_at, with_run};
ghost use Rattle.vt_grid.specs.Ring.{blank_slot};
ghost use Rattle.vt_grid.specs.Store.{grid_view};

use super::{RowStore, stays_narrow};
use crate::code::Code;
use crate::rows::row::Row;
use vt_cells::{Cell, HALF};

impl RowStore {
    /// Makes every cell `c`.
    pub(crate) fn fill_all(&mut self, c: Cell)
        ensures { grid_view self.new ≡ filled_grid self.old.rows self.old.cols c }
    {
        cut_each(&mut self.rows, c);
        self.narrow = c.code != HALF;
    }

    /// Puts the cells of these codes into row `y` from column `x` on. `narrow`: whether it is known
    /// that none of them is the code of a right half.
    #[inline(always)]
    pub(crate) fn put_run<T: Code>(&mut self, y: u8, x: u8, codes: &[T], attr: u8, narrow: bool)
        requires run { HasCells (grid_view self.old) y x (length codes.now) }
        requires narrow { narrow ≡ true → list_all (λ c. not (T.code_of c == half)) codes.now ≡ true }
        ensures { grid_view self.new
            ≡ with_run (grid_view self.old) y x
            (map (λ c. record { code = T.code_of c; attr = attr }) codes.now) }
    {
        self.stays_fit();
        let number = self.ring.at(y);
        let row = &mut self.rows[usize::from(number)];
        row.reach(x);
        row.write_run(x, codes, attr);
        self.narrow = self.narrow & narrow;
    }

    /// Makes the cells from column `x0` to `x1`, both included, `c`.
    pub(crate) fn erase(&mut self, y: u8, x0: u8, x1: u8, c: Cell)
        requires order { x0 ≤ x1 }
        requires place { HasPlace (grid_view self.old) y x1 }
        ensures { grid_view self.new ≡ with_erased (grid_view self.old) y x0 x1 c }
    {
        let last = self.size().cols - 1;
        if x1 == last {
            self.cut_from(y, x0, c);
        } else {
            self.fill(y, x0, x1 - x0 + 1, c);
        }
    }

    // Puts the cell `c` into row `y` from column `x` on, `count` times.
    fn fill(&mut self, y: u8, x: u8, count: u8, c: Cell)
        requires { HasCells (grid_view self.old) y x count }
        ensures { grid_view self.new
            ≡ with_run (grid_view self.old) y x (replicate count c) }
    {
        self.stays_fit();
        let number = self.ring.at(y);
        let row = &mut self.rows[usize::from(number)];
        row.reach(x);
        row.fill(x, count, c);
        self.narrow = stays_narrow(self.narrow, c);
    }

    // Makes the cells of row `y` from column `x` on `c`.
    fn cut_from(&mut self, y: u8, x: u8, c: Cell)
        requires { HasPlace (grid_view self.old) y x }
        ensures { grid_view self.new ≡ with_erased (grid_view self.old) y x (self.old.cols - 1) c }
    {
        self.stays_fit();
        let number = self.ring.at(y);
        let row = &mut self.rows[usize::from(number)];
        row.reach(x);
        row.cut(x, c);
        self.narrow = stays_narrow(self.narrow, c);
    }

    /// Inserts the cell `c` at column `x` of row `y`, `n` times. The row's rest moves right, and the cells
    /// that pass the end are lost.
    pub(crate) fn insert(&mut self, y: u8, x: u8, n: u16, c: Cell)
        requires { HasPlace (grid_view self.old) y x }
        ensures { grid_view self.new ≡ with_inserted (grid_view self.old) y x n c }
    {
        self.stays_fit();
        let room = self.size.cols - x;
        let count = n.min(u16::from(room)) as u8;
        let number = self.ring.at(y);
        let row = &mut self.rows[usize::from(number)];
        row.reach(x);
        row.insert(x, count, c);
        self.narrow = stays_narrow(self.narrow, c);
    }

    /// Deletes `n` cells at column `x` of row `y`. The row's rest moves left, and its end is `c`.
    pub(crate) fn delete(&mut self, y: u8, x: u8, n: u16, c: Cell)
        requires { HasPlace (grid_view self.old) y x }
        ensures { grid_view self.new ≡ with_deleted (grid_view self.old) y x n c }
    {
        self.stays_fit();
        let cols = self.size.cols;
        let room = cols - x;
        let count = n.min(u16::from(room)) as u8;
        let number = self.ring.at(y);
        let row = &mut self.rows[usize::from(number)];
        row.reach(cols);
        row.remove(x, count, c);
        self.narrow = stays_narrow(self.narrow, c);
    }

    /// The first `cols` cells of row `y` become those of the old row `from`.
    pub(crate) fn copy_row(&mut self, y: u8, old: &RowStore, from: u8, cols: u8)
        requires run { HasCells (grid_view self.old) y 0 cols }
        requires old_run { HasCells (grid_view old.now) from 0 cols }
        ensures { grid_view self.new
            ≡ with_run (grid_view self.old) y 0 (take cols (row_at (grid_view old.now) from)) }
    {
        old.stays_fit();
        if cols == self.size().cols {
            self.copy_whole(y, old, from);
        } else {
            self.cover_row(y, old, from, cols);
        }
    }

    // Row `y` becomes the old row `from`, up to its length.
    fn copy_whole(&mut self, y: u8, old: &RowStore, from: u8)
        requires row { y < self.old.rows }
        requires old_run { HasCells (grid_view old.now) from 0 self.old.cols }
        ensures { grid_view self.new
            ≡ with_run (grid_view self.old) y 0
            (take self.old.cols (row_at (grid_view old.now) from)) }
    {
        self.stays_fit();
        old.stays_fit();
        let cols = self.size.cols;
        let number = self.ring.at(y);
        let row = &mut self.rows[usize::from(number)];
        row.copy(old.row(from), cols);
        self.narrow = self.narrow & old.is_narrow();
    }

    // The first `count` cells of row `y` become those of the old row `from`.
    fn cover_row(&mut self, y: u8, old: &RowStore, from: u8, count: u8)
        requires run { HasCells (grid_view self.old) y 0 count }
        requires old_run { HasCells (grid_view old.now) from 0 count }
        ensures { grid_view self.new
            ≡ with_run (grid_view self.old) y 0 (take count (row_at (grid_view old.now) from)) }
    {
        self.stays_fit();
        old.stays_fit();
        let number = self.ring.at(y);
        let row = &mut self.rows[usize::from(number)];
        row.cover(old.row(from), count);
        self.narrow = self.narrow & old.is_narrow();
    }
}

// Makes each row blank: each of its cells is `c`.
fn cut_each(rows: &mut [Row], c: Cell)
    ensures { rows.new ≡ map (blank_slot c) rows.old }
{
    for i in 0..rows.len() {
        rows[i].cut(0, c);
    }
}
