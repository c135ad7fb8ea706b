//! The display: which console has it, which process handles the switches of each console, and how
//! the display changes hands (ioctl_console(2)).
#![tactic(auto)]

mod asked;
mod cause;
mod console;
mod deaths;
mod handling;
mod handshake;
mod hop;
mod laws;
mod mark;
mod mode;
mod release;
mod request;
mod same;
mod settings;
mod state;
mod words;

pub use asked::Asked;
pub use cause::Cause;
pub use console::Console;
pub use handling::Handling;
pub use handshake::Handshake;
pub use hop::Hop;
pub use laws::{
    acts_tell_one_thing, each_hop_was_allowed, each_target_was_asked_for, only_hops_switch,
};
pub use mark::Mark;
pub use mode::SIGKILL;
pub use state::Switch;
pub use words::Words;
