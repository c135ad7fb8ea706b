//! Tables as the bytes of calls and answers: pairs of compose keys, a user's table and a palette.
#![tactic(auto)]

mod colours;
mod laws;
mod numbers;
mod pair_list;
mod pairs;
mod words;

pub use colours::{add_colours, read_colours};
pub use laws::{adds_what_was_read, reads_what_was_added};
pub use pair_list::PairList;
pub use pairs::{add_pairs, read_pairs};
pub use words::{add_words, read_words};
