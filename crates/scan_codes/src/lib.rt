//! Scan codes: from the bytes of a keyboard to key events.
#![tactic(auto)]

mod key_event;
mod laws;
mod scanner;
mod start;

pub use key_event::KeyEvent;
pub use laws::{any_cut, groups_are_read};
pub use scanner::Scanner;
