use vt_base::ConsoleNo;

/// A notice about a console. This project's own.
#[derive(Clone, Copy, Debug, PartialEq, Eq)]
pub struct Notice {
    /// The kind: 0 the display came to the console, 1 its bell rang, 2 one of its rows is new.
    pub kind: u8,
    pub console: ConsoleNo,
}
