//! The order of a session's calls: which caller is next, how far each caller is, how a history ends, and
//! the schedule of the play on one thread.
#![tactic(auto)]

mod counts;
mod laws;
mod session_progress;
mod sessions;

pub use laws::{meant_laws, order_laws, race_laws, serial_laws};
pub use session_progress::SessionProgress;
pub use sessions::{session_laws, start_of};
