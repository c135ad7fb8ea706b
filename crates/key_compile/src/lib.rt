//! Compiles the lines of a keymap into key tables (keymaps(5), loadkeys(1)).
#![tactic(auto)]

mod compiling;
mod entries;
mod fill;
mod first_fault;
mod laws;
mod metas;
mod pairs;
mod strings;
mod union;
mod usual;

pub use compiling::compile;
pub use laws::{compiled_are_dumpable, one_value, usual_tables_are_kept};
