/// The five words of a console's mode (ioctl_console(2), VT_SETMODE).
#[derive(Clone, Copy, Debug, PartialEq, Eq)]
pub struct VtMode {
    /// The handler of a switch: 0 is the console itself (VT_AUTO), 1 a process (VT_PROCESS).
    pub mode: u16,
    /// Whether a write waits while the console isn't in front. It is kept and has no effect.
    pub waitv: u16,
    /// The signal that asks the process to release the display.
    pub relsig: u16,
    /// The signal that is sent to the process when it gets the display.
    pub acqsig: u16,
    /// Unused, and kept.
    pub frsig: u16,
}
