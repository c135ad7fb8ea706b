//! The fields of TOML tables: numbers, flags, texts, arrays, keymaps and scan bytes, each with its
//! fault.
#![tactic(auto)]

mod arrays;
mod conversions;
mod documents;
mod error_text;
mod fault;
pub mod fault_code;
mod fields;
mod included;
mod keymaps;
mod scans;

pub use arrays::{count, integers, strings, tables};
pub use documents::document;
pub use fault::{TableError, TableFault, refused};
pub use fields::{Numbers, at, flag, number, text, within};
pub use included::texts;
pub use keymaps::keymap;
pub use scans::{item_bytes, scan_bytes, scan_items};
