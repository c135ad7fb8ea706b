//! A screen as a text that draws it again, on any screen of its size.
#![tactic(auto)]

mod cells;
mod drawable;
mod drawing;
mod filled_rows;
mod laws;
mod leaving_out;
mod modes;
mod near_state;
mod nearest;
mod palette;
mod pen;
mod pending;
mod sequences;
mod state;
mod stored;

pub use drawable::redrawable;
pub use drawing::{redraw, redraw_changes, redraw_changes_near, redraw_near};
pub use laws::{
    cells_are_drawable, near_is_drawn, redraws_are_short, redraws_use_rows, rows_are_characters,
    screens_redraw, states_are_drawable, texts_follow,
};
pub use leaving_out::{LeftOut, left_out};
pub use nearest::near;
