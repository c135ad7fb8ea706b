//! The text of the error, as the program `vt` prints it on standard error.
ghost use Rattle.std.specs.Prelude.{Some};
ghost use Rattle.vt_explain.specs.ErrorTexts.{error_text};

use crate::CertError;
use std::error::Error;
use std::fmt;

impl fmt::Display for CertError {
    ghost output = { λ error. Some (error_text error) };

    fn fmt<W: fmt::Write>(&self, f: &mut fmt::Formatter<W>) -> fmt::Result {
        match self {
            CertError::Fault { line } => write!(f, "refused 45 at {line}:1"),
            CertError::NoMemory => f.write_str("no memory"),
        }
    }
}

impl Error for CertError {}
