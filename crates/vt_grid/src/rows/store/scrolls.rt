//! The scrolls of a grid, on its stored rows.
ghost use Rattle.std.specs.Prelude.{◌≡◌, ◌+◌, ◌-◌, ◌<◌, ◌≤◌, ◌==◌, ℕ, drop, if◌then◌else◌, length, slice_index, take};
ghost use Rattle.vt_grid.specs.Grid.{HasRows, scrolled_down, scrolled_up};
ghost use Rattle.vt_grid.specs.StoredRow.{blank_row};
ghost use Rattle.vt_grid.specs.Ring.{cut_all};
ghost use Rattle.vt_grid.specs.Store.{with_run_of, part_turned, scroll_steps, grid_view};

use super::{RowStore, stays_narrow};
use crate::rows::Steps;
use crate::rows::ring::Ring;
use crate::rows::row::Row;
use std::marker::Brand;
use std::sync::ledger::{Blank, Ledger};
use vt_cells::Cell;

impl RowStore {
    /// Moves the rows `top` to `bottom`, both included, up by `n`, or by their number if `n` is more.
    /// The rows that come in are filled with `c`.
    #[inline(always)]
    pub(crate) fn scroll_up<L: Ledger>(
        &mut self,
        top: u8,
        bottom: u8,
        n: u16,
        c: Cell,
        steps: &mut Steps<L>,
    )
        requires { HasRows (grid_view self.old) top bottom }
        ensures grid { grid_view self.new ≡ scrolled_up (grid_view self.old) top bottom n c }
        ensures steps { steps.new ≤ steps.old + scroll_steps self.old.rows top bottom n }
    {
        self.stays_fit();
        let height = bottom - top + 1;
        let count = n.min(u16::from(height)) as u8;
        self.scroll(top, bottom, count, bottom + 1 - count, count, c, steps);
    }

    /// Scrolls down, as [`RowStore::scroll_up`] scrolls up.
    pub(crate) fn scroll_down(&mut self, top: u8, bottom: u8, n: u16, c: Cell)
        requires { HasRows (grid_view self.old) top bottom }
        ensures { grid_view self.new ≡ scrolled_down (grid_view self.old) top bottom n c }
    {
        self.stays_fit();
        let height = bottom - top + 1;
        let count = n.min(u16::from(height)) as u8;
        scroll_alone::<Brand>(
            self,
            top,
            bottom,
            height - count,
            top,
            count,
            c,
            Blank::new(1),
        );
    }

    // Moves the rows `top` to `bottom` up by `n` around their end, and then makes `count` rows from row
    // `from` on blank.
    #[inline(always)]
    fn scroll<L: Ledger>(
        &mut self,
        top: u8,
        bottom: u8,
        n: u8,
        from: u8,
        count: u8,
        c: Cell,
        steps: &mut Steps<L>,
    )
        requires region { HasRows (grid_view self.old) top bottom }
        requires some { n ≤ bottom + 1 - top }
        requires part { from + count ≤ self.old.rows }
        ensures rows { self.new
            ≡ record self.old {
              lines = with_run_of from count (blank_row c) (part_turned top bottom n self.old.lines);
            } }
        ensures steps { steps.new
            ≤ steps.old
            + (count + (if bottom + 1 - top == self.old.rows then 1 else (bottom + 1 - top))) }
    {
        if bottom - top == self.size().rows - 1 {
            self.move_up(top, bottom, n, steps);
            self.clear(from, count, c, steps);
        } else {
            self.scroll_some(top, bottom, n, from, count, c, steps);
        }
    }

    // Does the same for rows that aren't all rows. It isn't inlined: then a scroll of all rows saves no
    // registers.
    #[inline(never)]
    fn scroll_some<L: Ledger>(
        &mut self,
        top: u8,
        bottom: u8,
        n: u8,
        from: u8,
        count: u8,
        c: Cell,
        steps: &mut Steps<L>,
    )
        requires region { HasRows (grid_view self.old) top bottom }
        requires some { n ≤ bottom + 1 - top }
        requires part { from + count ≤ self.old.rows }
        ensures rows { self.new
            ≡ record self.old {
              lines = with_run_of from count (blank_row c) (part_turned top bottom n self.old.lines);
            } }
        ensures steps { steps.new
            ≤ steps.old
            + (count + (if bottom + 1 - top == self.old.rows then 1 else (bottom + 1 - top))) }
    {
        self.move_up(top, bottom, n, steps);
        self.clear(from, count, c, steps);
    }

    // Moves the rows `top` to `bottom` up by `n` around their end. Nothing moves if `n` is their number.
    fn move_up<L: Ledger>(&mut self, top: u8, bottom: u8, n: u8, steps: &mut Steps<L>)
        requires region { HasRows (grid_view self.old) top bottom }
        requires some { n ≤ bottom + 1 - top }
        ensures rows { self.new ≡ record self.old { lines = part_turned top bottom n self.old.lines } }
        ensures steps { steps.new
            ≤ steps.old
            + (if bottom + 1 - top == self.old.rows then 1 else (bottom + 1 - top)) }
    {
        let rows = self.size().rows;
        if n > bottom - top {
            return;
        }
        if bottom - top == rows - 1 {
            self.turn(n, steps);
        } else {
            self.rotate(top, bottom, n, steps);
        }
    }

    // Stores no cell of `count` rows from row `from` on: each of their cells is `c`. As many steps as
    // these rows.
    fn clear<L: Ledger>(&mut self, from: u8, count: u8, c: Cell, steps: &mut Steps<L>)
        requires { from + count ≤ self.old.rows }
        ensures rows { self.new
            ≡ record self.old { lines = with_run_of from count (blank_row c) self.old.lines } }
        ensures steps { steps.new ≡ steps.old + count }
    {
        self.stays_fit();
        if count == 1 {
            self.cut(from, 0, c, steps);
            return;
        }
        self.narrow = stays_narrow(self.narrow, c);
        clear_rows(&mut self.rows, &self.ring, from, count, c);
        steps.add(u64::from(count));
    }
}

// Scrolls with a counter of its own.
#[inline(always)]
fn scroll_alone<L: Ledger>(
    store: &mut RowStore,
    top: u8,
    bottom: u8,
    n: u8,
    from: u8,
    count: u8,
    c: Cell,
    blank: Blank,
)
    requires name { blank.name ≡ L.name }
    requires parts { blank.parts ≡ L.parts }
    requires several { 0 < blank.parts }
    requires region { HasRows (grid_view store.old) top bottom }
    requires some { n ≤ bottom + 1 - top }
    requires part { from + count ≤ store.old.rows }
    ensures { store.new
        ≡ record store.old {
          lines = with_run_of from count (blank_row c) (part_turned top bottom n store.old.lines);
        } }
{
    let mut steps = Steps::<L>::open(blank);
    store.scroll(top, bottom, n, from, count, c, &mut steps);
}

// Makes `count` rows blank, those named by the numbers from the one at `from` on: each cell is `c`.
#[inline(never)]
fn clear_rows(rows: &mut [Row], ring: &Ring, from: u8, count: u8, c: Cell)
    requires part { from + count ≤ length ring.now }
    requires within { (y : ℕ) → y < length ring.now → slice_index ring.now y < length rows.old }
    ensures { rows.new ≡ cut_all (take count (drop from ring.now)) c rows.old }
{
    let (front, back) = ring.pieces(from, count);
    cut_rows(rows, front, c);
    cut_rows(rows, back, c);
}

fn cut_rows(rows: &mut [Row], numbers: &[u8], c: Cell)
    requires within { (i : ℕ) → i < length numbers.now → slice_index numbers.now i < length rows.old }
    ensures { rows.new ≡ cut_all numbers.now c rows.old }
{
    for number in numbers {
        rows[usize::from(*number)].cut(0, c);
    }
}
