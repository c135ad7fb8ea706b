//! Cooked lines: a line discipline after termios(3), in a profile of this project's own.
#![tactic(auto)]

mod cooked_line;
mod echo;
mod echo_bytes;
mod given;
mod kept_text;
mod kind;
mod laws;
mod stop;
mod stop_text;
mod termios;
mod tty;
mod turn;
mod turn_laws;

pub use cooked_line::Cooked;
pub use echo_bytes::EchoBytes;
pub use given::Given;
pub use laws::{erase_drops_last, list_is_its_pushes, one_more, worked_rows};
pub use stop::Stop;
pub use termios::Termios;
pub use tty::Tty;
pub use turn::Turn;
pub use turn_laws::turns_read;
