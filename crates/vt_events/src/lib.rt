//! The calls of callers on a machine and their parts, the answers, and the entries of a journal.
#![tactic(auto)]

mod charges;
mod entry;
mod event;
mod forms;
mod kind;
mod kind_guess;
mod laws;
mod parts;
mod reply;
mod same;

pub use charges::{charge, reply_bytes};
pub use entry::Entry;
pub use event::Event;
pub use kind::{Kind, MOST_NUMBERS};
pub use laws::parts_make_the_call;
pub use parts::Parts;
pub use reply::Reply;
pub use same::{same_event, same_reply};
