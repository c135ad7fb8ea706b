//! Dumps of a screen: its characters, its attributes, its codes, and its rows as text.
#![tactic(auto)]

mod cells;
mod characters;
mod dumps;
mod form;
mod rows;
mod texts;

pub use characters::row_characters;
pub use dumps::{codes, vcs, vcsa};
pub use rows::{add_row, add_rows, text_row, text_rows};
pub use texts::is_own_byte;
