//! Key tables: the action of each keycode in each table, the function strings and the pairs.
#![tactic(auto)]

mod func_text;
mod key_tables;
mod listing;
mod maps;
mod table;

pub use key_tables::KeyTables;
