//! The conversions into errors: from a fault, and from each way in which memory runs out.
ghost use Rattle.std.specs.Prelude.{◌≡◌};
ghost use Rattle.table_fields.specs.declared.fault.TableError.TheVariants as errors;

use crate::{TableError, TableFault};
use std::alloc::{AllocError, AllocFailed};
use vt_base::NoMemory;

impl From<TableFault> for TableError {
    ghost from_gives = { λ fault e. e ≡ errors.Fault fault };

    fn from(fault: TableFault) -> TableError {
        TableError::Fault(fault)
    }
}

impl From<NoMemory> for TableError {
    ghost from_gives = { λ _ e. e ≡ errors.NoMemory };

    fn from(_error: NoMemory) -> TableError {
        TableError::NoMemory
    }
}

impl From<AllocError> for TableError {
    ghost from_gives = { λ _ e. e ≡ errors.NoMemory };

    fn from(_error: AllocError) -> TableError {
        TableError::NoMemory
    }
}

impl<T: Drop> From<AllocFailed<T>> for TableError {
    ghost from_gives = { λ _ e. e ≡ errors.NoMemory };

    fn from(_error: AllocFailed<T>) -> TableError {
        TableError::NoMemory
    }
}
