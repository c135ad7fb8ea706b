//! The session.
use crate::ending::Failure;
use session_text::{SError, Session, read};
use std::alloc::Global;

/// The session of the text.
pub(crate) fn session_of(alloc: Global, text: &[u8]) -> Result<Session, Failure> {
    match read(alloc, text) {
        Ok(session) => Ok(session),
        Err(SError::Fault(fault)) => Err(Failure::Refused {
            code: fault.kind,
            a: fault.part,
            b: fault.item,
        }),
        Err(SError::NoMemory) => Err(Failure::NoMemory),
    }
}
