//! The text of a fault, as the program `vt` prints it on standard error.
ghost use Rattle.std.specs.Prelude.{Some};
ghost use Rattle.key_text.specs.ErrorText.{fault_text};

use crate::KeyFault;
use std::error::Error;
use std::fmt;

impl fmt::Display for KeyFault {
    ghost output = { λ fault. Some (fault_text fault) };

    fn fmt<W: fmt::Write>(&self, f: &mut fmt::Formatter<W>) -> fmt::Result {
        let kind = self.kind;
        let line = self.line;
        let column = self.column;
        write!(f, "refused {kind} at {line}:{column}")
    }
}

impl Error for KeyFault {}
