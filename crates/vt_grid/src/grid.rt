ghost use Rattle.std.specs.Prelude.{◌≡◌, ◌<◌, ◌≤◌, ◌+◌, take, IfOk};
ghost use Rattle.vt_grid.specs.Grid.{HasCellAt, HasPlace, HasRows, HasCells, IsFull, with_deleted, with_erased, filled_grid, with_inserted, resized_grid, row_at, scrolled_down, scrolled_up, with_cell, with_run};
ghost use Rattle.vt_grid.specs.Halves.{split_wide_rows};
ghost use Rattle.vt_grid.specs.Store.{scroll_steps};

use crate::resize::copy_cells;
use crate::row_cells::RowCells;
use crate::rows::{RowStore, Steps};
use std::alloc::Global;
use std::marker::{Brand, Model};
use std::mem;
use std::sync::ledger::{Blank, Ledger};
use vt_base::{NoMemory, Size};
use vt_cells::{Cell, HALF};

/// The cells of a screen: rows and columns are counted from 0, from the top left.
#[derive(Drop)]
pub struct Grid {
    // `halves.rt` uses it too.
    pub(crate) store: RowStore,
}

impl Model for Grid {
    ghost use Rattle.vt_grid.specs.Grid.{GridView};
    ghost use Rattle.vt_grid.specs.Store.{grid_view};

    ghost Value = { GridView };

    ghost view = { λ g. grid_view g.store };
}

impl Grid {
    /// A grid whose cells are all `c`.
    pub fn blank(alloc: Global, size: Size, c: Cell) -> Result<Grid, NoMemory>
        ensures { IfOk result (λ grid. grid ≡ filled_grid size.rows size.cols c) }
    {
        let store = RowStore::blank(alloc, size, c)?;
        Ok(Grid { store })
    }

    /// The rows and columns, which no call changes.
    pub fn size(&self) -> Size
        ensures rows { result.rows ≡ self.now.rows }
        ensures cols { result.cols ≡ self.now.cols }
        ensures full { IsFull self.now }
    {
        self.store.size()
    }

    /// Does nothing: it is called for its clause.
    pub fn stays_full(&self)
        ensures rows { self.now.rows ≤ 255 }
        ensures cols { self.now.cols ≤ 255 }
        ensures full { IsFull self.now }
    {
        let _ = self.size();
    }

    /// The cell in row `y` and column `x`.
    pub fn at(&self, y: u8, x: u8) -> Cell
        requires { HasPlace self.now y x }
        ensures { HasCellAt self.now y x result }
    {
        self.store.stays_fit();
        self.store.at(y, x)
    }

    /// The cells of row `y`, from left to right.
    pub fn row(&self, y: u8) -> RowCells<'_>
        requires { y < self.now.rows }
        ensures { result ≡ row_at self.now y }
    {
        self.store.stays_fit();
        self.store.cells(y)
    }

    /// Sets one cell.
    pub fn put(&mut self, y: u8, x: u8, c: Cell)
        requires { HasPlace self.old y x }
        ensures { self.new ≡ with_cell self.old y x c }
    {
        self.store.stays_fit();
        self.store
            .put_run::<u32>(y, x, &[c.code], c.attr, c.code != HALF);
    }

    /// Makes every cell `c`.
    pub fn fill(&mut self, c: Cell)
        ensures { self.new ≡ filled_grid self.old.rows self.old.cols c }
    {
        self.store.fill_all(c);
    }

    /// Moves the rows `top` to `bottom`, both included, up by `n`, or by their number if `n` is more. The
    /// new rows are filled with `c`.
    pub fn scroll_up(&mut self, top: u8, bottom: u8, n: u16, c: Cell)
        requires { HasRows self.old top bottom }
        ensures { self.new ≡ scrolled_up self.old top bottom n c }
    {
        scroll_up_alone::<Brand>(self, top, bottom, n, c, Blank::new(1));
    }

    /// [`Grid::scroll_up`] with a count of its steps.
    #[inline(always)]
    pub fn scroll_up_counted<L: Ledger>(
        &mut self,
        top: u8,
        bottom: u8,
        n: u16,
        c: Cell,
        steps: &mut Steps<L>,
    )
        requires { HasRows self.old top bottom }
        ensures grid { self.new ≡ scrolled_up self.old top bottom n c }
        ensures steps { steps.new ≤ steps.old + scroll_steps self.old.rows top bottom n }
    {
        self.store.scroll_up(top, bottom, n, c, steps);
    }

    /// [`Grid::scroll_up`] in the other direction.
    pub fn scroll_down(&mut self, top: u8, bottom: u8, n: u16, c: Cell)
        requires { HasRows self.old top bottom }
        ensures { self.new ≡ scrolled_down self.old top bottom n c }
    {
        self.store.scroll_down(top, bottom, n, c);
    }

    /// Makes the cells from column `x0` to `x1`, both included, `c`.
    pub fn erase(&mut self, y: u8, x0: u8, x1: u8, c: Cell)
        requires order { x0 ≤ x1 }
        requires place { HasPlace self.old y x1 }
        ensures { self.new ≡ with_erased self.old y x0 x1 c }
    {
        self.store.erase(y, x0, x1, c);
    }

    /// Inserts `n` cells `c` at column `x`. The rest of the row moves right, and the cells that pass the
    /// end are lost.
    pub fn insert(&mut self, y: u8, x: u8, n: u16, c: Cell)
        requires { HasPlace self.old y x }
        ensures { self.new ≡ with_inserted self.old y x n c }
    {
        self.store.insert(y, x, n, c);
    }

    /// Deletes `n` cells at column `x`. The rest of the row moves left, and its end is filled with `c`.
    pub fn delete(&mut self, y: u8, x: u8, n: u16, c: Cell)
        requires { HasPlace self.old y x }
        ensures { self.new ≡ with_deleted self.old y x n c }
    {
        self.store.delete(y, x, n, c);
    }

    /// Takes the size of `fresh`: cells of the old row `y + skip` are copied to row `y` if both have them.
    /// Returns the old grid.
    pub fn resized_into(&mut self, fresh: Grid, skip: u8) -> Grid
        ensures grid { self.new ≡ resized_grid self.old fresh skip }
        ensures old { result ≡ self.old }
    {
        let mut fresh = fresh;
        let cols = self.size().cols;
        copy_cells(&mut fresh, self, skip, cols);
        mem::replace(self, fresh)
    }

    /// [`Grid::resized_into`], except that a character that the last column of `fresh` cuts becomes a
    /// space.
    pub fn resized_parted_into(&mut self, fresh: Grid, skip: u8) -> Grid
        ensures grid { self.new ≡ resized_grid (split_wide_rows fresh.cols self.old) fresh skip }
        ensures old { result ≡ self.old }
    {
        let mut fresh = fresh;
        let cols = fresh.size().cols;
        copy_cells(&mut fresh, self, skip, cols);
        mem::replace(self, fresh)
    }
}

impl Grid {
    // Copies the first `cols` cells of the old row `from` to row `y`.
    pub(crate) fn copy_row(&mut self, y: u8, old: &Grid, from: u8, cols: u8)
        requires run { HasCells self.old y 0 cols }
        requires old_run { HasCells old.now from 0 cols }
        ensures { self.new ≡ with_run self.old y 0 (take cols (row_at old.now from)) }
    {
        self.store.copy_row(y, &old.store, from, cols);
    }
}

// Scrolls up, with a counter of its own.
#[inline(always)]
fn scroll_up_alone<L: Ledger>(grid: &mut Grid, top: u8, bottom: u8, n: u16, c: Cell, blank: Blank)
    requires name { blank.name ≡ L.name }
    requires parts { blank.parts ≡ L.parts }
    requires some { 0 < blank.parts }
    requires region { HasRows grid.old top bottom }
    ensures { grid.new ≡ scrolled_up grid.old top bottom n c }
{
    let mut steps = Steps::<L>::open(blank);
    grid.scroll_up_counted(top, bottom, n, c, &mut steps);
}
