//! A machine with the journal of its calls: with the calls that are gone from it, the journal is a legal
//! history of the machine from its start, and the machine is what that history leaves.
#![tactic(auto)]

mod admit_error;
mod admitting;
mod call_error;
mod calling;
mod counts;
mod machine;
mod printing;

pub use admit_error::AdmitError;
pub use call_error::CallError;
pub use machine::Machine;
