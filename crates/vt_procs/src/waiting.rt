use crate::Ticket;

/// The state of a process's wait.
#[derive(Clone, Copy, Debug, PartialEq, Eq)]
pub enum Waiting {
    /// The process does not wait.
    Nothing,
    Open(Ticket),
    /// The event that it waited for came.
    Done,
    /// A signal came, or the idle rule ended it.
    Broken,
}
