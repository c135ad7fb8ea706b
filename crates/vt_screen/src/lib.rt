//! The escape machine: it reads text byte by byte and keeps the screen.
#![tactic(auto)]

pub mod cursor_laws;
mod cursor_step;
mod emu;
mod fallen_row;
mod fallen_rows;
mod laws;
mod leading;
mod listener;
mod outs;
mod telling;
mod text_laws;
mod write;

pub use emu::{Emu, FEED_BYTES};
pub use fallen_rows::FallenRows;
pub use laws::{
    any_cut, any_row_cut, halves_follow_wide, pieces_draw, requests_are_few, tapes_keep_characters,
    tapes_keep_halves, tapes_run, texts_are_cut,
};
pub use listener::Listener;
pub use outs::Outs;
pub use text_laws::text_fills_rows;
pub use vt_canvas::{BLANK, Out, ReportText, Saved, ScreenState, SideEffect, Stops};
