//! The verdict on a journal: it is a legal history of a session, or the first entry that fails and why.
#![tactic(auto)]

mod checking;
mod endings;
mod judge;
mod laws;
mod verdict;
mod witness;

pub use checking::{check, watch};
pub use laws::one_verdict;
pub use verdict::Verdict;
pub use witness::Witness;
