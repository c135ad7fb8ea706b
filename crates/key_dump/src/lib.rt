//! Key tables as keymap text (dumpkeys(1)).
#![tactic(auto)]

mod code_point;
mod dumping;
mod entries;
mod laws;
mod quoting;

pub use dumping::{dump, dumpable};
pub use laws::dump_reads_back;
