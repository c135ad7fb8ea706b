ghost use Rattle.std.specs.Prelude.{Some};
ghost use Rattle.machine.specs.ErrorText.{call_text};

use std::error::Error;
use std::fmt;

/// Why a call isn't made.
#[derive(Clone, Copy, Debug, PartialEq, Eq)]
pub enum CallError {
    /// The journal has no room for it.
    Full,
    /// Its caller has made 4,294,967,295 calls: there is no greater number for an entry.
    Uncounted,
    /// Memory ran out.
    NoMemory,
}

impl fmt::Display for CallError {
    ghost output = { λ e. Some (call_text e) };

    fn fmt<W: fmt::Write>(&self, f: &mut fmt::Formatter<W>) -> fmt::Result {
        match self {
            CallError::Full => f.write_str("journal full"),
            CallError::Uncounted => f.write_str("no number for a call"),
            CallError::NoMemory => f.write_str("no memory"),
        }
    }
}

impl Error for CallError {}
