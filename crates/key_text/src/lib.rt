//! Keymap text (keymaps(5)): its lines, or its first fault with the place.
#![tactic(auto)]

mod fault;
pub mod fault_kind;
mod fault_text;
mod fields;
mod first_word;
mod fit_kind;
mod included;
mod includes;
mod key_lines;
mod keymaps_line;
pub mod laws;
mod line;
mod line_kind;
mod named;
mod next_row;
mod pieces;
mod placed;
mod quoted;
mod reading;
mod statement;
mod syms;
mod table_set;
mod tally;
mod word_lines;
mod words;

pub use fault::{KeyError, KeyFault};
pub use includes::Includes;
pub use line::Line;
pub use line_kind::LineKind;
pub use reading::{parse, parse_within};
pub use syms::Syms;
pub use table_set::TableSet;
