ghost use Rattle.std.specs.Prelude.{◌≡◌, ◌≤◌, ◌++◌, ◌↔◌, IsTrue, drop, length, replicate};
ghost use Rattle.std.specs.Iterator.{YieldsFirst, item_count};

use crate::packed_cell::PackedCell;
use std::iter::FusedIterator;
use std::marker::Model;
use vt_cells::Cell;

/// The cells of a row from left to right, an iterator from [`Grid::row`](crate::Grid::row). Contracts
/// see the list of the cells that are left. The blank end of a row isn't stored, so there is no slice.
#[derive(Drop)]
pub struct RowCells<'a> {
    stored: &'a [PackedCell],
    rest: PackedCell,
    past: u8,
}

impl<'a> Model for RowCells<'a> {
    ghost use Rattle.std.specs.Prelude.{List, ◌++◌, replicate};
    ghost use Rattle.vt_cells.specs.declared.cell.Cell.{Cell};

    ghost Value = { List Cell };

    ghost view = { λ r. r.stored.now ++ replicate r.past r.rest };
}

impl<'a> RowCells<'a> {
    // The stored cells, and then `past` times the cell `rest`.
    pub(crate) fn new(stored: &'a [PackedCell], rest: PackedCell, past: u8) -> RowCells<'a>
        ensures { result ≡ stored.now ++ replicate past rest }
    {
        RowCells { stored, rest, past }
    }

    /// Writes all cells into the first places, and returns their number.
    pub fn write_to(self, places: &mut [Cell]) -> usize
        requires { length self ≤ length places.old }
        ensures count { result ≡ length self.entry }
        ensures places { places.new ≡ self.entry ++ drop (length self.entry) places.old }
    {
        let count = self.stored.len();
        let (front, back) = places.split_at_mut(count);
        write_each(RowCells::new(self.stored, self.rest, 0), front);
        write_each(
            RowCells::new(&self.stored[count..], self.rest, self.past),
            back,
        );
        count + usize::from(self.past)
    }

    /// Whether both have the same cells left. Of rows that store as many cells and have the same blank end,
    /// only the stored cells are compared.
    #[tactic(auto, using(std::proofs::lemmas::List::append_cancel_right))]
    pub(crate) fn is_same(self, other: RowCells<'_>) -> bool
        ensures { IsTrue result ↔ (self ≡ other) }
    {
        let as_many = (self.past == other.past) & (self.stored.len() == other.stored.len());
        if as_many & self.rest.is_same(other.rest) {
            are_same(self.stored, other.stored)
        } else {
            has_same_cells(self, other)
        }
    }
}

impl<'a> Iterator for RowCells<'a> {
    type Item = Cell;

    ghost next_gives = { YieldsFirst (λ cells. cells) };

    ghost remaining = { item_count (λ cells. cells) };

    #[inline(always)]
    fn next(&mut self) -> Option<Cell> {
        if let Some((first, others)) = self.stored.split_first() {
            self.stored = others;
            return Some(first.cell());
        }
        if self.past == 0 {
            return None;
        }
        self.past -= 1;
        Some(self.rest.cell())
    }
}

impl<'a> FusedIterator for RowCells<'a> {}

// Writes each cell into a place, from the first place on.
#[inline(always)]
fn write_each(cells: RowCells<'_>, places: &mut [Cell])
    requires { length cells ≤ length places.old }
    ensures { places.new ≡ cells.entry ++ drop (length cells.entry) places.old }
{
    let mut n = 0;
    for cell in cells {
        places[n] = cell;
        n += 1;
    }
}

// Whether both have the same cells.
fn are_same(first: &[PackedCell], second: &[PackedCell]) -> bool
    requires { length first.now ≡ length second.now }
    ensures { IsTrue result ↔ (first.now ≡ second.now) }
{
    let mut same = true;
    for i in 0..first.len() {
        same = same & first[i].is_same(second[i]);
    }
    same
}

// The same, a cell at a time.
fn has_same_cells(first: RowCells<'_>, second: RowCells<'_>) -> bool
    ensures { IsTrue result ↔ (first ≡ second) }
{
    let mut first = first;
    let mut second = second;
    while let Some(cell) = first.next() {
        match second.next() {
            Some(other) if other == cell => {}
            _ => return false,
        }
    }
    second.next().is_none()
}
