//! The journal of a machine's calls: a log of entries within limits, its text in two versions, and the reading of
//! such a text.
#![tactic(auto)]

mod adding;
mod callers;
mod cut;
mod entries;
mod entry_lines;
mod error_text;
mod fault_code;
mod first;
mod first_line;
mod full;
mod hex;
mod j_error;
mod j_fault;
mod journal;
mod laws;
mod limits;
mod log;
mod numbers;
mod parsing;
mod printing;
mod reading;
mod replies;
mod reply_kind;
mod single_lines;
mod tail;
mod tail_lines;
mod words;

pub use adding::{add, add_next, add_number};
pub use callers::{add_caller, are_numbered};
pub use cut::{CutLine, cut_line};
pub use entries::Entries;
pub use first::version_of;
pub use full::Full;
pub use hex::add_hex;
pub use j_error::JError;
pub use j_fault::JFault;
pub use journal::Journal;
pub use laws::{lines_make_the_text, one_call, one_journal};
pub use limits::Limits;
pub use log::Log;
pub use numbers::take_number;
pub use parsing::parse;
pub use printing::{add_event, add_reply, print};
pub use reading::read_event;
pub use single_lines::{print_entry, print_first, print_tail};
pub use tail::Tail;
pub use words::{Words, take_word};
