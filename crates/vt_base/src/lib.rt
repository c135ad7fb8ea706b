//! Types that every layer shares: numbers and their limits, errors, byte strings, sizes, and the
//! error for memory that ran out.
#![tactic(auto)]

mod adding;
mod bytes;
mod caller_no;
mod console_no;
mod console_set;
mod decimal;
mod digits;
mod errno;
mod fd;
mod inval;
mod keyboard_no;
mod laws;
mod limits;
mod no_memory;
mod short_list;
mod sig_set;
mod signal;
mod size;
mod vt_mode;

pub use bytes::Bytes;
pub use caller_no::CallerNo;
pub use console_no::ConsoleNo;
pub use console_set::is_among;
pub use decimal::parse_decimal;
pub use digits::{hex_digit, hex_value, lower_hex_value};
pub use errno::Errno;
pub use fd::Fd;
pub use inval::Inval;
pub use keyboard_no::KeyboardNo;
pub use laws::{limits_are_kept, with_adds_one};
pub use limits::{CALLERS, CONSOLES, DESCRIPTORS, KEYBOARDS, PIECE_BYTES, PROCESSES, SIGNALS};
pub use no_memory::NoMemory;
pub use short_list::ShortList;
pub use sig_set::SigSet;
pub use signal::Signal;
pub use size::Size;
pub use vt_mode::VtMode;
