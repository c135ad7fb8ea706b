//! The review of a journal: stored listeners get a line for each switch, bell and new row that they hear.
#![tactic(auto)]

mod change;
mod changes;
mod ear;
mod ear_table;
mod entry_lines;
mod lines;
mod listener;
mod notice;
mod reviewed;
mod reviewer;
mod reviewing;
mod screens;
mod touching;

pub use ear::Ear;
pub use ear_table::EarTable;
pub use listener::Listener;
pub use notice::Notice;
pub use reviewed::Reviewed;
pub use reviewing::review;
