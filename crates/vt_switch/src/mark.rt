use crate::Hop;
use vt_base::{CallerNo, ConsoleNo, Signal};

/// A mark: one thing that an event did to the display or to a caller.
#[derive(Clone, Copy, Debug)]
pub enum Mark {
    /// The display was requested for the console; the console is allocated.
    Asked(ConsoleNo),
    /// The signal was raised to the caller; the caller is alive.
    Raised { to: CallerNo, signal: Signal },
    /// The display went from one console to another.
    Hopped(Hop),
    /// The caller died.
    Ended(CallerNo),
}
