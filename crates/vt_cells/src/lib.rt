//! A cell of a screen: its character, its attributes, and the colours that they stand for.
#![tactic(auto)]

mod attr;
mod attribute;
mod cell;
mod folding;
mod indexed;
mod intensity;
mod laws;
mod look;
mod palette;
mod plain;
mod width;

pub use attr::Attr;
pub use attribute::{attr_byte, erase_byte, swapped};
pub use cell::Cell;
pub use folding::{fold_bg, fold_fg};
pub use indexed::rgb_of;
pub use intensity::Intensity;
pub use laws::columns_are_few;
pub use look::Look;
pub use palette::Palette;
pub use plain::is_plain;
pub use width::{HALF, columns};
