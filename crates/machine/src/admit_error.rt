ghost use Rattle.std.specs.Prelude.{Some};
ghost use Rattle.machine.specs.ErrorText.{admit_text};

use std::error::Error;
use std::fmt;

/// Why a process can't be given to a program.
#[derive(Clone, Copy, Debug, PartialEq, Eq)]
pub enum AdmitError {
    /// It isn't a process of the machine's start.
    Unlisted,
    /// It has ended. Its number is used up.
    Ended,
    /// It has made calls, and has something open, a signal pending, or a wait, accepts the key signal, or
    /// handles the switches of a console.
    InUse,
    /// It has made calls, and started with other rights.
    OtherRights,
}

impl fmt::Display for AdmitError {
    ghost output = { λ e. Some (admit_text e) };

    fn fmt<W: fmt::Write>(&self, f: &mut fmt::Formatter<W>) -> fmt::Result {
        match self {
            AdmitError::Unlisted => f.write_str("no such process"),
            AdmitError::Ended => f.write_str("process ended"),
            AdmitError::InUse => f.write_str("process in use"),
            AdmitError::OtherRights => f.write_str("other rights"),
        }
    }
}

impl Error for AdmitError {}
