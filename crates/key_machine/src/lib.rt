//! Up to four keyboards: a key event gives bytes or a request, by the tables of a keymap and a
//! console's key state.
#![tactic(auto)]

mod accents;
mod actions;
mod bytes;
mod cursor;
pub mod flag;
mod function;
mod held;
mod kb_state;
mod key_bytes;
mod key_modes;
mod key_out;
mod keyboard;
mod laws;
pub mod meta;
pub mod mode;
mod pad;
mod short_out;
mod special;
mod waiting;

pub use kb_state::KbState;
pub use key_bytes::KeyBytes;
pub use key_modes::{KeyModes, START_MODES};
pub use key_out::KeyOut;
pub use keyboard::Keyboard;
pub use laws::{
    keys_come_up, keys_follow, locks_stay, medium_bytes_tell, numbers_are_kept, presses_record,
    records_stay, unplug_takes,
};
pub use short_out::{FewBytes, ShortOut};
