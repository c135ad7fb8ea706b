//! The callers of a machine: the keyboards and the processes, with the descriptors of each, its
//! pending signals, and its wait.
#![tactic(auto)]

mod config;
mod ending;
mod opens;
mod proc_list;
mod proc_start;
mod process;
mod procs;
mod same;
mod ticket;
mod waited;
mod waiting;
mod waits;

pub use config::Config;
pub use opens::Opens;
pub use proc_list::ProcList;
pub use proc_start::ProcStart;
pub use process::Process;
pub use procs::Procs;
pub use ticket::Ticket;
pub use waited::Waited;
pub use waiting::Waiting;
