//! Sessions: the programs of a machine's callers, and the text that defines them.
#![tactic(auto)]

mod acting;
mod answers;
mod asks;
mod callers;
mod further;
mod header_fields;
mod hook_texts;
mod hooked;
mod hooks;
mod item_texts;
mod items;
mod keyboard_fields;
mod laws;
mod making;
mod parts;
mod process;
mod process_fields;
mod program;
mod reading;
mod script_items;
mod session;
mod session_header;
mod session_keyboard;
mod starts;
mod tops;
mod turns;
mod walk;

pub use callers::program_of;
pub use items::Items;
pub use laws::{callers_have_programs, one_session, waits_are_ended};
pub use program::Program;
pub use reading::read;
pub use session::Session;
pub use table_fields::{TableError as SError, TableFault as SFault};
pub use walk::Walk;
