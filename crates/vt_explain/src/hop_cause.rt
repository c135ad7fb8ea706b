use vt_base::{CallerNo, Signal};

/// The cause of a switch in a certificate.
#[derive(Clone, Copy, Debug, PartialEq, Eq)]
pub enum HopCause {
    /// The console that had the display handles its switches itself.
    Free,
    /// The process that handles the console's switches let it go, after the signal that asked it to.
    Released {
        owner: CallerNo,
        /// The index of the entry that raised the signal.
        asked: u32,
        signal: Signal,
    },
    /// The process that handled the console's switches died, after the signal that asked it to let go.
    Died {
        owner: CallerNo,
        /// The index of the entry that raised the signal.
        asked: u32,
        signal: Signal,
    },
}
