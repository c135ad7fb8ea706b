//! The play of a session, on one thread, and its race, in which each caller has a thread of its own.
#![tactic(auto)]

mod caller;
mod callers;
mod drill;
mod drill_draws;
mod drill_items;
mod final_map;
mod final_texts;
mod hooks;
mod pace;
mod passes;
mod player;
mod racing;
mod rounds;
mod serial;
mod turn;
mod worker;

pub use drill::drill_session;
pub use final_map::final_text_map;
pub use final_texts::final_text;
pub use racing::{race, race_tables};
pub use serial::play;
pub use vt_hub::Run;
