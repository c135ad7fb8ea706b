//! The texts of the faults of a session's tables, as the program `vt` prints them on standard error.
ghost use Rattle.std.specs.Prelude.{Some};
ghost use Rattle.table_fields.specs.ErrorTexts.{error_text, fault_text};

use crate::{TableError, TableFault};
use std::error::Error;
use std::fmt;

impl fmt::Display for TableFault {
    ghost output = { λ fault. Some (fault_text fault) };

    fn fmt<W: fmt::Write>(&self, f: &mut fmt::Formatter<W>) -> fmt::Result {
        write!(f, "refused {} at {}:{}", self.kind, self.part, self.item)
    }
}

impl Error for TableFault {}

impl fmt::Display for TableError {
    ghost output = { λ error. Some (error_text error) };

    fn fmt<W: fmt::Write>(&self, f: &mut fmt::Formatter<W>) -> fmt::Result {
        match self {
            TableError::Fault(fault) => write!(f, "{fault}"),
            TableError::NoMemory => f.write_str("no memory"),
        }
    }
}

impl Error for TableError {}
