//! The cells of a screen and their edits.
#![tactic(auto)]

mod changes;
mod code;
mod grid;
mod halves;
pub mod laws;
mod packed_cell;
mod resize;
mod row_cells;
pub mod rows;
mod same;

pub use grid::Grid;
pub use row_cells::RowCells;
