/// An act of a process at a signal. Descriptors are numbers and need not be open.
#[derive(Clone, Copy, Debug, PartialEq, Eq)]
pub enum Act {
    Nothing,
    /// Answers for the display (ioctl_console(2), VT_RELDISP).
    Disp { fd: u16, arg: u16 },
    /// Writes one byte.
    Put { fd: u16, byte: u8 },
    /// Exits.
    Leave,
}
