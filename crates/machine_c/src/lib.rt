//! The machine of all consoles with the journal of its calls, for programs in C: `vt_machine` of
//! `libvt/include/vt.h`.
#![tactic(auto)]

mod admitting;
mod calling;
mod changing;
mod handle;
mod journal;
mod keymap;
mod lent_machine;
mod loan;
mod making;
mod marks;
mod numbers;
mod picturing;
mod reading;
mod redrawing;
mod rows;
mod sending;
mod shown_cells;
mod starting;
mod vt_console;
mod vt_display;
mod vt_mark;
mod vt_reply;
mod vt_seat;
mod vt_start;
mod words;

pub use handle::MachineHandle;
pub use loan::MachineLoan;
