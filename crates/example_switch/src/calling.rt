//! The two processes that call.
use vt_base::CallerNo;

/// The process that handles the switches of console 1.
pub(crate) fn server() -> CallerNo {
    CallerNo::numbered(1)
}

/// The process that requests consoles.
pub(crate) fn asker() -> CallerNo {
    CallerNo::numbered(2)
}
