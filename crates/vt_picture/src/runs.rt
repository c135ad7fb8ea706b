//! The runs of a row, and the words of a run.
ghost use Rattle.std.specs.Prelude.{◌≡◌, ◌+◌, ◌<◌, ◌≤◌, ◌∷◌, drop, take};
ghost use Rattle.vt_grid.specs.Grid.{row_at};
ghost use Rattle.vt_picture.specs.Runs.{are_alike, are_joined, is_blank, is_letter, is_narrow, runs, words};

use vt_cells::{Cell, HALF, columns};
use vt_grid::Grid;

/// The number of cells of the run that begins in row `y` and column `x`.
#[tactic(auto, using(crate::proofs::Groups::joined_more))]
pub(crate) fn run_length(g: &Grid, y: u8, x: u8) -> u8
    requires row { y < g.now.rows }
    requires column { x < g.now.cols }
    ensures some { 0 < result }
    ensures within { x + result ≤ g.now.cols }
    ensures run { runs (drop x (row_at g.now y))
        ≡ take result (drop x (row_at g.now y)) ∷ runs (drop (x + result) (row_at g.now y)) }
{
    let cols = g.size().cols;
    for next in x + 1..cols {
        if !are_joined(g.at(y, next - 1), g.at(y, next)) {
            return next - x;
        }
    }
    cols - x
}

/// The number of cells of the word that begins in row `y` and column `x`, in a run up to column `end`.
#[tactic(auto, using(crate::proofs::Groups::joined_more))]
pub(crate) fn word_length(g: &Grid, y: u8, x: u8, end: u8) -> u8
    requires row { y < g.now.rows }
    requires order { x < end }
    requires within { end ≤ g.now.cols }
    ensures some { 0 < result }
    ensures within { x + result ≤ end }
    ensures word { words (drop x (take end (row_at g.now y)))
        ≡ take result (drop x (take end (row_at g.now y)))
        ∷ words (drop (x + result) (take end (row_at g.now y))) }
{
    g.stays_full();
    for next in x + 1..end {
        if !are_alike(g.at(y, next - 1), g.at(y, next)) {
            return next - x;
        }
    }
    end - x
}

#[tactic(auto, unfolding(crate::specs::Runs::are_joined))]
fn are_joined(left: Cell, right: Cell) -> bool
    ensures { result ≡ are_joined left right }
{
    right.code == HALF || is_narrow(left) && is_narrow(right) && left.attr == right.attr
}

fn is_narrow(cell: Cell) -> bool
    ensures { result ≡ is_narrow cell }
{
    columns(cell.code) == 1 && cell.code != HALF && cell.code < 0x10000
}

#[tactic(auto, unfolding(crate::specs::Runs::are_alike))]
fn are_alike(left: Cell, right: Cell) -> bool
    ensures { result ≡ are_alike left right }
{
    is_letter(left) && is_letter(right) || left.code == right.code
}

fn is_letter(cell: Cell) -> bool
    ensures { result ≡ is_letter cell }
{
    !is_blank(cell) && (cell.code < 0x2500 || cell.code > 0x259F)
}

/// Whether the cell is a space.
pub(crate) fn is_blank(cell: Cell) -> bool
    ensures { result ≡ is_blank cell }
{
    cell.code == u32::from(b' ')
}
