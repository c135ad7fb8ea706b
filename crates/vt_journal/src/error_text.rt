//! The texts of a journal's faults, as the program `vt` prints them on standard error.
ghost use Rattle.std.specs.Prelude.{Some};
ghost use Rattle.vt_journal.specs.ErrorText.{error_text, fault_text};

use crate::{JError, JFault};
use std::error::Error;
use std::fmt;

impl fmt::Display for JFault {
    ghost output = { λ fault. Some (fault_text fault) };

    fn fmt<W: fmt::Write>(&self, f: &mut fmt::Formatter<W>) -> fmt::Result {
        let kind = self.kind;
        let line = self.line;
        let column = line.min(1);
        write!(f, "refused {kind} at {line}:{column}")
    }
}

impl Error for JFault {}

impl fmt::Display for JError {
    ghost output = { λ error. Some (error_text error) };

    fn fmt<W: fmt::Write>(&self, f: &mut fmt::Formatter<W>) -> fmt::Result {
        match self {
            JError::Fault(fault) => write!(f, "{fault}"),
            JError::NoMemory => f.write_str("no memory"),
        }
    }
}

impl Error for JError {}
