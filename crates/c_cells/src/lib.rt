//! Cells for programs in C: `struct vt_cell` of `libvt/include/vt.h`, and the cells of a grid in places that C passes.
#![tactic(auto)]

mod placing;
mod vt_cell;

pub use placing::{put_all, put_row};
pub use vt_cell::VtCell;
