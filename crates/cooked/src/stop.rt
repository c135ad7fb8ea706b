use vt_base::Errno;
use vt_journal::Full;

/// Why a turn stopped.
#[derive(Clone, Copy, Debug, PartialEq, Eq)]
pub enum Stop {
    /// The read or the write was refused.
    Err(Errno),
    /// The hub has stopped.
    Full(Full),
}
