use crate::{Handshake, Words};

/// How a console handles its switches.
#[derive(Clone, Copy, Debug, PartialEq, Eq)]
pub enum Handling {
    /// VT_AUTO: the console itself, at once.
    Auto(Words),
    /// VT_PROCESS: a process is asked first.
    Process(Handshake),
}
