//! The verdict on a journal of programs that have no text: whether its entries are a legal history of a start and its
//! last line is theirs, or the first entry that fails and why.
#![tactic(auto)]

mod counts;
mod free_judge;
mod free_verdict;
mod judging;
mod laws;

pub use free_verdict::FreeVerdict;
pub use judging::judge;
pub use laws::one_free_verdict;
