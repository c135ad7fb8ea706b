//! The assertion about a row of a test, which prints the row if it fails.
use std::fmt::Debug;
use std::process::Abort;
use vt_base::NoMemory;

/// Ends the test unless the row passes.
pub(crate) fn check(by: &impl Abort, is_right: bool, row: impl Debug + Drop) {
    assert!(by; is_right, "{row:?}");
}

/// Ends the test unless the row passes. A row for which memory ran out fails.
pub(crate) fn check_made(by: &impl Abort, made: Result<bool, NoMemory>, row: impl Debug + Drop) {
    check(by, matches!(made, Ok(true)), row);
}
