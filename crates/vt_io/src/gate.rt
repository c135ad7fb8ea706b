use std::sync::Wait;
use vt_base::CallerNo;

/// Code that a caller runs before each of its calls on a shared machine. It may block the caller. No
/// answer depends on it.
pub trait Gate {
    /// Called before the caller makes its call number `seq`, counted from 0.
    fn before<R: Wait>(&self, rt: &R, caller: CallerNo, seq: u32);
}
