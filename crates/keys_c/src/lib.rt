//! A keymap and a keyboard that types by it, for programs in C.
#![tactic(auto)]

mod entries;
mod handle;
mod keymap;
mod keymap_keyboard;
mod lent_keyboard;
mod loan;
mod making;
mod modes;
mod pairs;
mod scanning;
mod sending;
mod strings;
mod vt_action;
mod vt_key;
mod vt_key_state;
mod vt_text;

pub use handle::KeysHandle;
pub use loan::KeysLoan;
