//! Units of a text: characters, control characters and sequences, read byte by byte.
#![tactic(auto)]

mod bytes;
mod characters;
mod codes;
mod ground;
mod laws;
mod long_sgr;
mod long_sgr_ahead;
mod mode;
mod numbers;
mod osc;
mod params;
mod parser_state;
mod pending;
mod pending_bytes;
mod printable;
mod read;
mod remainder;
mod sequence;
mod sequence_ahead;
mod sequence_units;
mod short_csi;
mod short_csi_ahead;
mod step;
mod strings;
mod then;
mod unit;
mod whole_sequence;

pub use codes::{Codes, MOST_CODES};
pub use laws::{
    any_cut, controls_are_units, drops_exactly, ended_texts, one_result, pieces_act,
    printables_are_characters, sequences_are_units, texts_are_cut, texts_spell_characters,
    unfinished_is_before,
};
pub use long_sgr::LongSgr;
pub use mode::Mode;
pub use params::Params;
pub use pending::Pending;
pub use read::Read;
pub use short_csi::ShortCsi;
pub use then::Then;
pub use unit::Unit;
pub use whole_sequence::WholeSequence;
