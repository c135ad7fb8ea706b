ghost use Rattle.std.specs.Prelude.{Some};
ghost use Rattle.key_text.specs.ErrorText.{error_text};

use std::alloc::{AllocError, AllocFailed};
use std::error::Error;
use std::fmt;
use vt_base::NoMemory;

/// The first fault of a keymap: its kind, one of [`crate::fault_kind`], and its place. Lines and
/// columns are counted from 1, columns in bytes.
#[derive(Clone, Copy, Debug, PartialEq, Eq)]
pub struct KeyFault {
    pub kind: u16,
    pub line: u32,
    pub column: u32,
}

/// Why a keymap wasn't read or compiled.
#[derive(Clone, Copy, Debug, PartialEq, Eq)]
pub enum KeyError {
    /// The text has a fault.
    Fault(KeyFault),
    /// Memory ran out.
    NoMemory,
}

impl fmt::Display for KeyError {
    ghost output = { λ error. Some (error_text error) };

    fn fmt<W: fmt::Write>(&self, f: &mut fmt::Formatter<W>) -> fmt::Result {
        match self {
            KeyError::Fault(fault) => {
                let kind = fault.kind;
                let line = fault.line;
                let column = fault.column;
                write!(f, "keymap refused {kind} at {line}:{column}")
            }
            KeyError::NoMemory => f.write_str("no memory"),
        }
    }
}

impl Error for KeyError {}

impl From<NoMemory> for KeyError {
    ghost use Rattle.std.specs.Prelude.{◌≡◌};
    ghost use Rattle.key_text.specs.declared.fault.KeyError.TheVariants.{NoMemory as want};

    ghost from_gives = { λ _ e. e ≡ want };

    fn from(_error: NoMemory) -> KeyError {
        KeyError::NoMemory
    }
}

impl From<AllocError> for KeyError {
    ghost use Rattle.std.specs.Prelude.{◌≡◌};
    ghost use Rattle.key_text.specs.declared.fault.KeyError.TheVariants.{NoMemory as want};

    ghost from_gives = { λ _ e. e ≡ want };

    fn from(_error: AllocError) -> KeyError {
        KeyError::NoMemory
    }
}

impl<T: Drop> From<AllocFailed<T>> for KeyError {
    ghost use Rattle.std.specs.Prelude.{◌≡◌};
    ghost use Rattle.key_text.specs.declared.fault.KeyError.TheVariants.{NoMemory as want};

    ghost from_gives = { λ _ e. e ≡ want };

    fn from(_error: AllocFailed<T>) -> KeyError {
        KeyError::NoMemory
    }
}
