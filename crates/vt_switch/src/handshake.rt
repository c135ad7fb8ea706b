use vt_base::{CallerNo, Signal};

/// A process that handles the switches of a console (VT_PROCESS).
#[derive(Clone, Copy, Debug, PartialEq, Eq)]
pub struct Handshake {
    pub owner: CallerNo,
    pub waitv: u16,
    /// The signal that asks the owner to let the display go.
    pub relsig: Signal,
    /// The signal for the owner when it gets the display.
    pub acqsig: Signal,
    pub frsig: u16,
}
