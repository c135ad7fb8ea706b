//! The commands of the program: words, input and output.
#![tactic(auto)]

mod answer;
mod command;
mod commands;
mod intake;
mod laws;
mod numbered_form;
mod read_end;
mod reading;
mod run;
mod status;
mod streamed;
mod streaming;
mod telling;
mod tool;
mod words;
mod writing;

pub use laws::{one_accept, one_check, one_explain, one_outcome, one_review, race_outcomes};
pub use run::vt_run;
pub use status::Status;
pub use streamed::Streamed;
pub use streaming::screen_stream;
pub use tool::vt_command;
