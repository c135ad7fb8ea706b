//! The screen that text draws on, and the effect of each unit of text on it.
#![tactic(auto)]

mod canvas;
mod out;
mod report_text;
mod saved;
mod screen_state;
mod side_effect;
mod stops;

pub use canvas::Canvas;
pub use out::Out;
pub use report_text::ReportText;
pub use saved::Saved;
pub use screen_state::ScreenState;
pub use side_effect::SideEffect;
pub use stops::Stops;
use vt_cells::Cell;

/// A blank cell: a space, white on black. This project's own.
pub const BLANK: Cell = Cell {
    code: 0x20,
    attr: 0x07,
};
