ghost use Rattle.std.specs.Prelude.{◌≡◌, ◌<◌, ◌≤◌, ◌+◌, ◌==◌, [], ◌∷◌, ◌++◌, length, slice_index_or};
ghost use Rattle.vt_canvas.specs.Falling.{fallen};
ghost use Rattle.vt_grid.specs.Grid.{row_at};
ghost use Rattle.vt_screen.specs.Falling.{AreWide};

use crate::fallen_row::FallenRow;
use std::marker::Model;
use vt_canvas::Canvas;
use vt_cells::Cell;
use vt_grid::Grid;
use vt_units::Unit;

/// The rows that fell out at the top of a screen by one byte: at most two. No call takes memory.
#[derive(Drop)]
pub struct FallenRows {
    first: FallenRow,
    second: FallenRow,
    count: usize,
}

impl Model for FallenRows {
    ghost use Rattle.std.specs.Prelude.{◌≤◌, List, [], ◌∷◌, take};
    ghost use Rattle.vt_cells.specs.declared.cell.Cell.{Cell};

    ghost Value = { List (List Cell) };

    ghost view = { λ f. take f.count (f.first ∷ f.second ∷ []) };

    ghost invariant = { λ f. f.count ≤ 2 };
}

impl FallenRows {
    /// No rows.
    pub fn new() -> FallenRows
        ensures { result ≡ [] }
    {
        FallenRows {
            first: FallenRow::new(),
            second: FallenRow::new(),
            count: 0,
        }
    }

    /// Removes all rows.
    pub fn clear(&mut self)
        ensures { self.new ≡ [] }
    {
        self.count = 0;
    }

    /// The number of rows.
    pub fn count(&self) -> usize
        ensures count { result ≡ length self.now }
        ensures bound { result ≤ 2 }
    {
        self.count
    }

    /// Whether there is no row.
    pub fn is_empty(&self) -> bool
        ensures { result ≡ (length self.now == 0) }
    {
        self.count == 0
    }

    /// A row from its left, by its number from 0.
    pub fn row(&self, n: usize) -> &[Cell]
        requires { n < length self.now }
        ensures { result.now ≡ slice_index_or self.now n [] }
    {
        if n == 0 {
            self.first.as_slice()
        } else {
            self.second.as_slice()
        }
    }

    /// Keeps the row of the canvas that falls out by this unit, if one does.
    pub(crate) fn keep(&mut self, canvas: &Canvas, unit: &Unit)
        requires { length self.old < 2 }
        ensures kept { self.new ≡ self.old ++ fallen unit.now canvas.now }
        ensures few { length self.new ≤ length self.old + 1 }
        ensures wide { AreWide canvas.now.grid.cols self.old → AreWide canvas.now.grid.cols self.new }
    {
        if canvas.loses_row(unit) {
            self.push(canvas.grid());
        }
    }

    // Adds the first row of these cells.
    fn push(&mut self, grid: &Grid)
        requires room { length self.old < 2 }
        requires some { 0 < grid.now.rows }
        ensures kept { self.new ≡ self.old ++ row_at grid.now 0 ∷ [] }
        ensures wide { AreWide grid.now.cols self.old → AreWide grid.now.cols self.new }
    {
        if self.count == 0 {
            self.first.copy_first_row(grid);
            self.count = 1;
        } else {
            self.second.copy_first_row(grid);
            self.count = 2;
        }
    }
}

impl Default for FallenRows {
    ghost is_default = { λ x. x ≡ [] };

    fn default() -> FallenRows {
        FallenRows::new()
    }
}
