//! What the calls of the C library share: their codes, structs that several of them fill or take, a text that is handed
//! over, and how a call takes what it reads or changes, and puts it back.
#![tactic(auto)]

pub mod code;
mod handing_over;
mod laws;
mod taking;
mod vt_fault;
mod vt_modes;

pub use handing_over::hand_over;
pub use laws::codes_are_kept;
pub use vt_fault::VtFault;
pub use vt_modes::VtModes;
