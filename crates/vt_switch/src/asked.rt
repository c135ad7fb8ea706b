use crate::Hop;
use vt_base::{CallerNo, Signal};

/// The result of a request for the display.
#[derive(Clone, Copy, Debug)]
pub enum Asked {
    /// The display changed hands.
    Hopped(Hop),
    /// The owner of the console in front is asked by a signal, and the console waits for the display.
    Signalled { owner: CallerNo, signal: Signal },
    /// The request has no effect.
    Ignored,
}
