use vt_base::ConsoleNo;

/// The event that a process waits for.
#[derive(Clone, Copy, Debug, PartialEq, Eq)]
pub enum Ticket {
    /// The console has the display (ioctl_console(2), VT_WAITACTIVE).
    Active(ConsoleNo),
    /// Bytes come to the console's queue.
    Input(ConsoleNo),
    /// A signal, and nothing else.
    AnySignal,
}
