ghost use Rattle.std.specs.Prelude.{◌≡◌};
ghost use Rattle.vt_journal.specs.declared.j_error.JError.TheVariants as errors;

use crate::JFault;
use std::alloc::AllocFailed;
use vt_base::NoMemory;

/// The error of reading a journal.
#[derive(Clone, Copy, Debug, PartialEq, Eq)]
pub enum JError {
    /// The text is not a journal.
    Fault(JFault),
    /// Memory ran out.
    NoMemory,
}

/// The error of a fault of this kind in this line.
pub(crate) fn refused(kind: u16, line: u32) -> JError
    ensures { result ≡ errors.Fault (record { kind = kind; line = line }) }
{
    JError::Fault(JFault { kind, line })
}

impl From<NoMemory> for JError {
    ghost use Rattle.std.specs.Prelude.{◌≡◌};
    ghost use Rattle.vt_journal.specs.declared.j_error.JError.TheVariants.{NoMemory as want};

    ghost from_gives = { λ _ e. e ≡ want };

    fn from(_error: NoMemory) -> JError {
        JError::NoMemory
    }
}

impl<T: Drop> From<AllocFailed<T>> for JError {
    ghost use Rattle.std.specs.Prelude.{◌≡◌};
    ghost use Rattle.vt_journal.specs.declared.j_error.JError.TheVariants.{NoMemory as want};

    ghost from_gives = { λ _ e. e ≡ want };

    fn from(_error: AllocFailed<T>) -> JError {
        JError::NoMemory
    }
}
