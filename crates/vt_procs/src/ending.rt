use vt_base::ConsoleNo;

/// Why open waits end.
#[derive(Clone, Copy, Debug)]
pub(crate) enum Ending {
    /// The console has the display.
    Shown(ConsoleNo),
    /// Bytes came to the console.
    Filled(ConsoleNo),
    /// Every live caller waits.
    Idle,
}
