//! A ticket lock with one history: a caller that enters sees all entries that were published, and adds one. `Bells` is
//! public for `vt_hub`, whose callers sleep in the same way.
#![tactic(auto)]

mod at_door;
mod atomic_steps;
mod bells;
mod board;
mod counts;
mod door;
mod entry;
mod held;
mod kept;
mod lends;
mod lock;
mod pass;
mod seal;
mod view;
mod visitor;

pub use bells::{Bells, Rung};
pub use door::Looked;
pub use entry::Entry;
pub use held::{Held, Left};
pub use kept::Kept;
pub use lock::TurnLock;
pub use pass::Pass;
pub use seal::Seal;
