ghost use Rattle.std.specs.Prelude.{◌≡◌, ◌+◌, ◌-◌, ◌<◌, ◌≤◌, [], ◌∷◌, false, length, true, All, IfOk};
ghost use Rattle.vt_cells.specs.Width.{is_half};
ghost use Rattle.vt_grid.specs.Grid.{HasPlace, HasRows};
ghost use Rattle.vt_grid.specs.Halves.{IsNarrow};
ghost use Rattle.vt_grid.specs.StoredRow.{IsNarrowLine, cell_at, cells_of, cut_at, with_stored_cells};
ghost use Rattle.vt_grid.specs.Store.{IsFit, blank_store, stored_row, part_turned, grid_view, rotation_by, with_stored_row};

mod edits;
mod scrolls;

use super::Steps;
use super::ring::Ring;
use super::row::Row;
use crate::row_cells::RowCells;
use std::alloc::Global;
use std::marker::Model;
use std::sync::ledger::Ledger;
use vt_base::{NoMemory, Size};
use vt_cells::{Cell, HALF};

/// The rows of a grid. Each stores its first cells, and one cell for all cells after them.
#[derive(Drop)]
pub struct RowStore {
    size: Size,
    ring: Ring,
    rows: Vec<Row>,
    // Whether it is known that no cell is the right half of a character: then no border splits one, and no
    // cell is read.
    narrow: bool,
}

impl Model for RowStore {
    ghost use Rattle.std.specs.Prelude.{◌≡◌, true};
    ghost use Rattle.vt_grid.specs.Ring.{AreNarrow, IsNaming, rows_by_number};
    ghost use Rattle.vt_grid.specs.Store.{Store};

    ghost Value = { Store };

    ghost view = { λ s. record {
      rows = s.size.rows;
      cols = s.size.cols;
      lines = rows_by_number s.rows.items s.ring;
    } };

    ghost invariant = { λ s.
        IsNaming s.size.rows s.size.cols s.ring s.rows.items
        × (s.narrow ≡ true → AreNarrow s.rows.items) };
}

impl RowStore {
    /// Rows that store no cell: each cell is `c`.
    pub fn blank(alloc: Global, size: Size, c: Cell) -> Result<RowStore, NoMemory>
        ensures { IfOk result (λ store. store ≡ blank_store size.rows size.cols c) }
    {
        let ring = Ring::rising(alloc, size.rows)?;
        let mut rows = Vec::with_capacity(alloc, usize::from(size.rows))?;
        for _y in 0..size.rows {
            rows.push(Row::blank(alloc, size.cols, c)?)?;
        }
        Ok(RowStore {
            size,
            ring,
            rows,
            narrow: c.code != HALF,
        })
    }

    /// The rows and columns, which no call changes.
    pub fn size(&self) -> Size
        ensures rows { result.rows ≡ self.now.rows }
        ensures cols { result.cols ≡ self.now.cols }
        ensures fit { IsFit self.now }
    {
        self.size
    }

    /// Does nothing: it is called for its clause.
    pub fn stays_fit(&self)
        ensures rows { self.now.rows ≤ 255 }
        ensures cols { self.now.cols ≤ 255 }
        ensures fit { IsFit self.now }
    {
        let _ = self.size();
    }

    // Whether it is known that no cell is the right half of a character.
    pub(crate) fn is_narrow(&self) -> bool
        ensures lines { result ≡ true → All IsNarrowLine self.now.lines }
        ensures grid { result ≡ true → IsNarrow (grid_view self.now) }
    {
        self.narrow
    }

    /// The cell in row `y` and column `x`.
    pub fn at(&self, y: u8, x: u8) -> Cell
        requires { HasPlace (grid_view self.now) y x }
        ensures { result ≡ cell_at (stored_row self.now y) x }
    {
        let number = self.ring.at(y);
        let row = &self.rows[usize::from(number)];
        row.at(x)
    }

    /// How many cells row `y` stores.
    pub fn stored(&self, y: u8) -> u8
        requires { y < self.now.rows }
        ensures { result ≡ length (stored_row self.now y).stored }
    {
        let number = self.ring.at(y);
        let row = &self.rows[usize::from(number)];
        row.stored()
    }

    /// Sets a cell that is stored, or the first that isn't. One step.
    pub fn write<L: Ledger>(&mut self, y: u8, x: u8, c: Cell, steps: &mut Steps<L>)
        requires row { y < self.old.rows }
        requires place { x ≤ length (stored_row self.old y).stored }
        requires column { x < self.old.cols }
        ensures rows { self.new ≡ with_stored_row self.old y (with_stored_cells x (c ∷ []) (stored_row self.old y)) }
        ensures steps { steps.new ≡ steps.old + 1 }
    {
        let number = self.ring.at(y);
        let row = &mut self.rows[usize::from(number)];
        row.write(x, c);
        self.narrow = stays_narrow(self.narrow, c);
        steps.add(1);
    }

    /// Keeps only the first `len` cells of row `y`; all cells after them are `tail`. One step.
    pub fn cut<L: Ledger>(&mut self, y: u8, len: u8, tail: Cell, steps: &mut Steps<L>)
        requires row { y < self.old.rows }
        requires stored { len ≤ length (stored_row self.old y).stored }
        ensures rows { self.new ≡ with_stored_row self.old y (cut_at len tail (stored_row self.old y)) }
        ensures steps { steps.new ≡ steps.old + 1 }
    {
        let number = self.ring.at(y);
        let row = &mut self.rows[usize::from(number)];
        row.cut(len, tail);
        self.narrow = stays_narrow(self.narrow, tail);
        steps.add(1);
    }

    /// Moves all rows up by `n`, from the top to the bottom. One step.
    pub fn turn<L: Ledger>(&mut self, n: u8, steps: &mut Steps<L>)
        requires { n ≤ self.old.rows }
        ensures rows { self.new ≡ record self.old { lines = rotation_by n self.old.lines } }
        ensures steps { steps.new ≡ steps.old + 1 }
    {
        self.ring.turn(n);
        steps.add(1);
    }

    /// Moves the rows `top` to `bottom`, both included, up by `n`, from their top to their bottom. One
    /// step for each of these rows; no other row's number is touched.
    pub fn rotate<L: Ledger>(&mut self, top: u8, bottom: u8, n: u8, steps: &mut Steps<L>)
        requires region { HasRows (grid_view self.old) top bottom }
        requires some { n ≤ bottom + 1 - top }
        ensures rows { self.new ≡ record self.old { lines = part_turned top bottom n self.old.lines } }
        ensures steps { steps.new ≡ steps.old + (bottom + 1 - top) }
    {
        self.ring.rotate(top, bottom, n, steps);
    }

    /// The cells of row `y`, from left to right.
    pub fn cells(&self, y: u8) -> RowCells<'_>
        requires { y < self.now.rows }
        ensures { result ≡ cells_of self.now.cols (stored_row self.now y) }
    {
        self.row(y).cells()
    }

    fn row(&self, y: u8) -> &Row
        requires { y < self.now.rows }
        ensures line { result.now.line ≡ stored_row self.now y }
        ensures room { result.now.room ≡ self.now.cols }
    {
        let number = self.ring.at(y);
        &self.rows[usize::from(number)]
    }
}

// Whether it is known that no cell is the right half of a character, if this one is added.
fn stays_narrow(narrow: bool, c: Cell) -> bool
    ensures before { result ≡ true → narrow ≡ true }
    ensures one { result ≡ true → is_half c ≡ false }
{
    narrow & (c.code != HALF)
}
