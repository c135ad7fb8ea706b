//! The effects of calls, keys and texts on the machine.

mod acts;
mod allocating;
mod asking;
pub mod attention;
mod idle;
mod marks;
mod queues;
mod typing;
mod writing;
