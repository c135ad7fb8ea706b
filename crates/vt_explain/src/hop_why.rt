use crate::HopCause;
use vt_base::ConsoleNo;

/// An item of a certificate: a switch of the display with its cause.
#[derive(Clone, Copy, Debug, PartialEq, Eq)]
pub struct HopWhy {
    /// The index of the entry that made the switch.
    pub at: u32,
    /// The number of switches of that entry before this one.
    pub nth: u32,
    pub from: ConsoleNo,
    pub to: ConsoleNo,
    pub cause: HopCause,
}
