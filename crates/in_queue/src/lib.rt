//! The input queue of a console: a piece of bytes goes in whole or not at all, and bytes come out in
//! order.
#![tactic(auto)]

mod in_queue;

pub use in_queue::InQueue;
