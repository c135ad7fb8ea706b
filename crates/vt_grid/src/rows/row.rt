ghost use Rattle.std.specs.Prelude.{◌≡◌, ◌+◌, ◌-◌, ◌<◌, ◌≤◌, [], ◌∷◌, ◌++◌, drop, length, map, replicate, take, IfOk};
ghost use Rattle.vt_grid.specs.StoredRow.{blank_row, cell_at, cells_of, with_prefix_of, cut_at, with_stored_inserted, stored_up_to, with_stored_deleted, with_stored_cells};

use crate::code::Code;
use crate::packed_cell::PackedCell;
use crate::row_cells::RowCells;
use std::alloc::Global;
use std::marker::Model;
use vt_base::NoMemory;
use vt_cells::Cell;

/// The most cells that are written without a loop.
const SHORT_RUN: usize = 8;

/// One row: room for its cells, of which the first `len` are stored.
#[derive(Drop)]
pub(crate) struct Row {
    cells: Vec<PackedCell>,
    rest: PackedCell,
    len: u8,
}

impl Model for Row {
    ghost use Rattle.std.specs.Prelude.{◌≤◌, length, take};
    ghost use Rattle.vt_grid.specs.Ring.{RowSlot};

    ghost Value = { RowSlot };

    ghost view = { λ r. record {
      room = length r.cells.items;
      line = record { stored = take r.len r.cells.items; rest = r.rest };
    } };

    ghost invariant = { λ r. (r.len ≤ length r.cells.items) × (length r.cells.items ≤ 255) };
}

impl Row {
    pub(crate) fn blank(alloc: Global, cols: u8, c: Cell) -> Result<Row, NoMemory>
        ensures { IfOk result (λ row. row ≡ record { room = cols; line = blank_row c }) }
    {
        let rest = PackedCell::new(c);
        let mut cells = Vec::new(alloc);
        cells.resize(usize::from(cols), rest)?;
        Ok(Row {
            cells,
            rest,
            len: 0,
        })
    }

    pub(crate) fn stored(&self) -> u8
        ensures { result ≡ length self.now.line.stored }
    {
        self.len
    }

    pub(crate) fn at(&self, x: u8) -> Cell
        requires { x < self.now.room }
        ensures { result ≡ cell_at self.now.line x }
    {
        if x < self.len {
            self.cells[usize::from(x)].cell()
        } else {
            self.rest.cell()
        }
    }

    pub(crate) fn write(&mut self, x: u8, c: Cell)
        requires place { x ≤ length self.old.line.stored }
        requires column { x < self.old.room }
        ensures { self.new ≡ record self.old { line = with_stored_cells x (c ∷ []) self.old.line } }
    {
        self.cells[usize::from(x)] = PackedCell::new(c);
        if x == self.len {
            self.len += 1;
        }
    }

    pub(crate) fn cut(&mut self, len: u8, c: Cell)
        requires { len ≤ length self.old.line.stored }
        ensures { self.new ≡ record self.old { line = cut_at len c self.old.line } }
    {
        self.len = len;
        self.rest = PackedCell::new(c);
    }

    /// Stores the cells before column `x`.
    pub(crate) fn reach(&mut self, x: u8)
        requires { x ≤ self.old.room }
        ensures { self.new ≡ record self.old { line = stored_up_to x self.old.line } }
    {
        if self.len < x {
            let rest = self.rest;
            self.cells[usize::from(self.len)..usize::from(x)].fill(rest);
            self.len = x;
        }
    }

    /// Writes the cells of these codes from column `x` on.
    #[inline(always)]
    pub(crate) fn write_run<T: Code>(&mut self, x: u8, codes: &[T], attr: u8)
        requires place { x ≤ length self.old.line.stored }
        requires columns { x + length codes.now ≤ self.old.room }
        ensures { self.new
            ≡ record self.old {
              line = with_stored_cells x (map (λ c. record { code = T.code_of c; attr = attr }) codes.now) self.old.line;
            } }
    {
        let stored = usize::from(self.len);
        let from = usize::from(x);
        let end = from + codes.len();
        write_codes(&mut self.cells[from..end], codes, attr);
        if stored < end {
            self.len = end as u8;
        }
    }

    /// Writes the cell `c`, `count` times, from column `x` on.
    pub(crate) fn fill(&mut self, x: u8, count: u8, c: Cell)
        requires place { x ≤ length self.old.line.stored }
        requires columns { x + count ≤ self.old.room }
        ensures { self.new
            ≡ record self.old { line = with_stored_cells x (replicate count c) self.old.line } }
    {
        let stored = usize::from(self.len);
        let from = usize::from(x);
        let end = from + usize::from(count);
        fill_all(&mut self.cells[from..end], count, PackedCell::new(c));
        if stored < end {
            self.len = end as u8;
        }
    }

    /// Inserts the cell `c` at column `x`, `count` times.
    pub(crate) fn insert(&mut self, x: u8, count: u8, c: Cell)
        requires place { x ≤ length self.old.line.stored }
        requires columns { x + count ≤ self.old.room }
        ensures { self.new
            ≡ record self.old { line = with_stored_inserted self.old.room x count c self.old.line } }
    {
        let room = self.cells.len();
        let end = room.min(usize::from(self.len) + usize::from(count));
        move_right(
            &mut self.cells[usize::from(x)..end],
            usize::from(count),
            PackedCell::new(c),
        );
        self.len = end as u8;
    }

    /// Removes `count` cells at column `x` of a row whose cells are all stored. All further cells are `c`.
    pub(crate) fn remove(&mut self, x: u8, count: u8, c: Cell)
        requires stored { length self.old.line.stored ≡ self.old.room }
        requires columns { x + count ≤ self.old.room }
        ensures { self.new ≡ record self.old { line = with_stored_deleted x count c self.old.line } }
    {
        let tail = PackedCell::new(c);
        let room = self.cells.len();
        let from = usize::from(x);
        self.cells
            .copy_within(from + usize::from(count)..room, from);
        self.len = (room - usize::from(count)) as u8;
        self.rest = tail;
    }

    /// Becomes the row `from`, of which at most the first `count` cells are stored.
    pub(crate) fn copy(&mut self, from: &Row, count: u8)
        requires { count ≤ self.old.room }
        ensures { self.new ≡ record self.old { line = cut_at count from.now.line.rest from.now.line } }
    {
        let stored = from.len.min(count);
        copy_prefix(&mut self.cells, first(&from.cells, stored));
        self.len = stored;
        self.rest = from.rest;
    }

    /// Takes the first `count` cells of the row `from`.
    pub(crate) fn cover(&mut self, from: &Row, count: u8)
        requires { count ≤ self.old.room }
        ensures { self.new ≡ record self.old { line = with_prefix_of count from.now.line self.old.line } }
    {
        let stored = self.len;
        let front = from.len.min(count);
        cover_prefix(&mut self.cells, count, first(&from.cells, front), from.rest);
        if stored < count {
            self.len = count;
        }
    }

    /// All cells, from left to right.
    pub(crate) fn cells(&self) -> RowCells<'_>
        ensures { result ≡ cells_of self.now.room self.now.line }
    {
        let past = self.cells.len() - usize::from(self.len);
        RowCells::new(first(&self.cells, self.len), self.rest, past as u8)
    }
}

fn first(cells: &[PackedCell], count: u8) -> &[PackedCell]
    requires { count ≤ length cells.now }
    ensures { result.now ≡ take count cells.now }
{
    &cells[..usize::from(count)]
}

fn copy_prefix(cells: &mut [PackedCell], front: &[PackedCell])
    requires { length front.now ≤ length cells.old }
    ensures { cells.new ≡ front.now ++ drop (length front.now) cells.old }
{
    cells[..front.len()].copy_from_slice(front);
}

// Writes the cells of `front`, and then `rest` up to place `end`.
fn cover_prefix(cells: &mut [PackedCell], end: u8, front: &[PackedCell], rest: PackedCell)
    requires front { length front.now ≤ end }
    requires end { end ≤ length cells.old }
    ensures { cells.new
        ≡ (front.now ++ replicate (end - length front.now) rest) ++ drop end cells.old }
{
    cover_all(&mut cells[..usize::from(end)], front, rest);
}

// Writes the cells of `front`, and then `rest`.
fn cover_all(cells: &mut [PackedCell], front: &[PackedCell], rest: PackedCell)
    requires { length front.now ≤ length cells.old }
    ensures { cells.new ≡ front.now ++ replicate (length cells.old - length front.now) rest }
{
    let count = front.len();
    cells[..count].copy_from_slice(front);
    cells[count..].fill(rest);
}

fn fill_all(cells: &mut [PackedCell], count: u8, c: PackedCell)
    requires { length cells.old ≡ count }
    ensures { cells.new ≡ replicate count c }
{
    cells.fill(c);
}

// Moves the cells right by count: those that pass the end are lost, and c comes in.
fn move_right(cells: &mut [PackedCell], count: usize, c: PackedCell)
    requires { count ≤ length cells.old }
    ensures { cells.new ≡ replicate count c ++ take (length cells.old - count) cells.old }
{
    let left = cells.len() - count;
    cells.copy_within(0..left, count);
    cells[..count].fill(c);
}

#[inline(always)]
fn write_codes<T: Code>(cells: &mut [PackedCell], codes: &[T], attr: u8)
    requires { length codes.now ≡ length cells.old }
    ensures { cells.new ≡ map (λ c. record { code = T.code_of c; attr = attr }) codes.now }
{
    if codes.len() <= SHORT_RUN {
        write_short(cells, codes, attr);
    } else {
        write_all(cells, codes, attr);
    }
}

// Writes at most eight cells: without a loop, which costs more to enter than these cost.
#[inline(always)]
#[tactic(auto, using(crate::proofs::Parts::written_all))]
fn write_short<T: Code>(cells: &mut [PackedCell], codes: &[T], attr: u8)
    requires same { length codes.now ≡ length cells.old }
    requires short { length codes.now ≤ 8 }
    ensures { cells.new ≡ map (λ c. record { code = T.code_of c; attr = attr }) codes.now }
{
    if codes.len() == 0 {
        return;
    }
    write_at(cells, codes, 0, attr);
    if codes.len() == 1 {
        return;
    }
    write_at(cells, codes, 1, attr);
    if codes.len() == 2 {
        return;
    }
    write_at(cells, codes, 2, attr);
    if codes.len() == 3 {
        return;
    }
    write_at(cells, codes, 3, attr);
    if codes.len() == 4 {
        return;
    }
    write_at(cells, codes, 4, attr);
    if codes.len() == 5 {
        return;
    }
    write_at(cells, codes, 5, attr);
    if codes.len() == 6 {
        return;
    }
    write_at(cells, codes, 6, attr);
    if codes.len() == 7 {
        return;
    }
    write_at(cells, codes, 7, attr);
}

// Writes the cell at place `i`, before which all are written.
#[inline(always)]
fn write_at<T: Code>(cells: &mut [PackedCell], codes: &[T], i: usize, attr: u8)
    requires place { i < length codes.now }
    requires same { length codes.now ≡ length cells.old }
    requires before { take i cells.old
        ≡ map (λ c. record { code = T.code_of c; attr = attr }) (take i codes.now) }
    ensures same { length cells.new ≡ length cells.old }
    ensures cells { take (i + 1) cells.new
        ≡ map (λ c. record { code = T.code_of c; attr = attr }) (take (i + 1) codes.now) }
{
    cells[i] = PackedCell::new(Cell {
        code: codes[i].code(),
        attr,
    });
}

#[inline(never)]
fn write_all<T: Code>(cells: &mut [PackedCell], codes: &[T], attr: u8)
    requires { length codes.now ≡ length cells.old }
    ensures { cells.new ≡ map (λ c. record { code = T.code_of c; attr = attr }) codes.now }
{
    for i in 0..codes.len() {
        cells[i] = PackedCell::new(Cell {
            code: codes[i].code(),
            attr,
        });
    }
}
