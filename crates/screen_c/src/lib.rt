//! The screen machine for programs in C: `vt_screen` of `libvt/include/vt.h`.
#![tactic(auto)]

mod colours;
mod columns;
mod feeding;
mod feeding_by_rows;
mod handle;
mod lent_screen;
mod life;
mod loan;
mod marks;
mod nearing;
mod owned_screen;
mod picturing;
mod reading;
mod redrawing;
mod sending;
mod vt_colour;
mod vt_fed;
mod vt_out;
mod vt_state;

pub use handle::ScreenHandle;
pub use loan::ScreenLoan;
pub use owned_screen::OwnedScreen;
pub use vt_colour::VtColour;
pub use vt_fed::VtFed;
pub use vt_out::VtOut;
pub use vt_state::VtState;
