//! Acts of processes at signals: a table of acts, and stored closures that answer by a table.
#![tactic(auto)]

mod act;
mod handler;
mod hook;
mod hook_table;

pub use act::Act;
pub use handler::Handler;
pub use hook::Hook;
pub use hook_table::HookTable;
