//! Characters of two columns: a border between the halves of one makes both spaces.
ghost use Rattle.std.specs.List.{list_all};
ghost use Rattle.std.specs.Prelude.{◌≡◌, ◌<◌, ◌≤◌, ◌+◌, ◌==◌, Some, false, not, true, length, slice_get};
ghost use Rattle.vt_cells.specs.Width.{half, is_plain};
ghost use Rattle.vt_grid.specs.Grid.{HasPlace, HasCells, cells_of_codes, row_at};
ghost use Rattle.vt_grid.specs.Halves.{with_cells_at, split_wide, split_wide_at, split_wide_between, space_in_colours};

use crate::Grid;
use vt_cells::{Cell, HALF};

impl Grid {
    /// Splits row `y` before column `x`: a character with a half on each side becomes two spaces in its
    /// colours.
    #[tactic(auto, using(crate::proofs::Narrow::parted_same))]
    pub fn part(&mut self, y: u8, x: u8)
        requires row { y < self.old.rows }
        requires column { x ≤ self.old.cols }
        ensures { self.new ≡ split_wide_at self.old y x }
    {
        if self.store.is_narrow() {
            return;
        }
        if self.splits(y, x) {
            self.space(y, x);
        }
    }

    /// Sets the cells from column `x` on, one for each byte. A character that is covered in part is split.
    #[inline(always)]
    pub fn draw_bytes(&mut self, y: u8, x: u8, bytes: &[u8], attr: u8)
        requires { HasCells self.old y x (length bytes.now) }
        ensures { self.new ≡ with_cells_at self.old y x (cells_of_codes bytes.now attr) }
    {
        self.stays_full();
        self.part_ends(y, x, x + bytes.len() as u8);
        self.store.put_run(y, x, bytes, attr, true);
    }

    /// Sets the cells from column `x` on, one for each plain code. A character that is covered in part is
    /// split.
    #[inline(always)]
    pub fn draw_plain(&mut self, y: u8, x: u8, codes: &[u32], attr: u8)
        requires plain { list_all is_plain codes.now ≡ true }
        requires run { HasCells self.old y x (length codes.now) }
        ensures { self.new ≡ with_cells_at self.old y x (cells_of_codes codes.now attr) }
    {
        self.stays_full();
        self.part_ends(y, x, x + codes.len() as u8);
        self.store.put_run(y, x, codes, attr, true);
    }

    /// Sets the cells from column `x` on, one for each code. A character that is covered in part is split.
    #[inline(always)]
    pub fn draw_codes(&mut self, y: u8, x: u8, codes: &[u32], attr: u8)
        requires { HasCells self.old y x (length codes.now) }
        ensures { self.new ≡ with_cells_at self.old y x (cells_of_codes codes.now attr) }
    {
        self.stays_full();
        self.part_ends(y, x, x + codes.len() as u8);
        let narrow = self.store.is_narrow() && are_narrow(codes);
        self.store.put_run(y, x, codes, attr, narrow);
    }

    // Splits row `y` before column `x`, and then before column `end`.
    #[inline(always)]
    #[tactic(auto, using(crate::proofs::Narrow::parted_between_same))]
    fn part_ends(&mut self, y: u8, x: u8, end: u8)
        requires row { y < self.old.rows }
        requires column { x ≤ self.old.cols }
        requires end { end ≤ self.old.cols }
        ensures { self.new ≡ split_wide_between self.old y x end }
    {
        if self.store.is_narrow() {
            return;
        }
        self.part_both(y, x, end);
    }

    #[inline(never)]
    fn part_both(&mut self, y: u8, x: u8, end: u8)
        requires row { y < self.old.rows }
        requires column { x ≤ self.old.cols }
        requires end { end ≤ self.old.cols }
        ensures { self.new ≡ split_wide_between self.old y x end }
    {
        self.part(y, x);
        self.part(y, end);
    }

    // Whether the cell in column `x` is the right half of the one before it.
    #[inline(always)]
    fn splits(&self, y: u8, x: u8) -> bool
        requires { y < self.now.rows }
        ensures half { result ≡ true → (0 < x) × (x < self.now.cols) }
        ensures none { result ≡ false → self.now ≡ split_wide_at self.now y x }
    {
        if x == 0 {
            return false;
        }
        if self.size().cols <= x {
            return false;
        }
        self.at(y, x).code == HALF
    }

    // The cell in row `y` and column `x`, if the row is split before a later column.
    pub(crate) fn at_parted(&self, y: u8, x: u8, border: u8) -> Cell
        requires place { HasPlace self.now y x }
        requires before { x < border }
        ensures { slice_get (split_wide border (row_at self.now y)) x ≡ Some result }
    {
        let cols = self.size().cols;
        let cell = self.at(y, x);
        if border - x > 1 {
            return cell;
        }
        if cols <= border {
            return cell;
        }
        if self.at(y, border).code == HALF {
            space_in_colours(cell)
        } else {
            cell
        }
    }

    // Makes the cells on both sides of the border spaces, if the right one is a half.
    #[inline(never)]
    fn space(&mut self, y: u8, x: u8)
        requires place { HasPlace self.old y x }
        requires some { 0 < x }
        ensures { self.new ≡ split_wide_at self.old y x }
    {
        self.stays_full();
        let right = self.at(y, x);
        if right.code == HALF {
            let left = self.at(y, x - 1);
            self.put(y, x - 1, space_in_colours(left));
            self.put(y, x, space_in_colours(right));
        }
    }
}

// A space in the cell's colours.
fn space_in_colours(c: Cell) -> Cell
    ensures { result ≡ space_in_colours c }
{
    Cell {
        code: u32::from(b' '),
        attr: c.attr,
    }
}

// Whether no code is that of a right half.
fn are_narrow(codes: &[u32]) -> bool
    ensures { result ≡ list_all (λ code. not (code == half)) codes.now }
{
    codes.iter().all(|code| *code != HALF)
}
