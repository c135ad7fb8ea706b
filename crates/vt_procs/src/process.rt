use crate::{Opens, Waiting};
use vt_base::SigSet;

/// The state of a caller.
#[derive(Clone, Copy, Debug)]
pub struct Process {
    pub live: bool,
    /// The console that it may handle without privilege, or 0.
    pub home: u8,
    pub privileged: bool,
    pub opens: Opens,
    /// The signals that were raised to it and that it hasn't taken yet.
    pub pending: SigSet,
    pub waiting: Waiting,
}
