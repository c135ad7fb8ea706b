//! Characters: UTF-8 read byte by byte, and the tables that map each byte to a character.
#![tactic(auto)]

mod char_map;
mod decoded;
mod got;
mod graphics;
mod laws;
mod utf8;

pub use char_map::CharMap;
pub use decoded::{Decoded, decode, decode_all, decode_four, decode_one, decode_three, decode_two};
pub use got::Got;
pub use laws::{ascii_cuts, byte_more, characters_are_all, unfinished_begins};
pub use utf8::Utf8;
