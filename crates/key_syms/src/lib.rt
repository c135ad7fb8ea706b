//! Actions of keys and their names: the symbols of a keymap, in both directions.
#![tactic(auto)]

mod action;
mod index;
pub mod kind;
mod laws;
mod limits;
mod name;
mod numeral;
mod pair;
mod search;
mod symbol;
mod table;

pub use action::Action;
pub use laws::{names_are_their_own, numbers_are_kept, tables_are_packed};
pub use limits::{KEYCODES, PAIR_COUNT, STRING_BYTES, STRING_COUNT, TABLE_COUNT};
pub use name::name_of;
pub use numeral::number;
pub use pair::Pair;
pub use symbol::{by_bytes, by_name};
