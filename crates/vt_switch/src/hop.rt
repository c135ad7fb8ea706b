use crate::Cause;
use vt_base::ConsoleNo;

/// The display goes from one console to another.
#[derive(Clone, Copy, Debug)]
pub struct Hop {
    pub from: ConsoleNo,
    pub to: ConsoleNo,
    pub cause: Cause,
}
