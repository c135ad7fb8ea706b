/// The answer to a process about its wait.
#[derive(Clone, Copy, Debug, PartialEq, Eq)]
pub enum Waited {
    /// The process has no wait.
    None,
    /// The wait is open.
    Still,
    /// The event that it waited for came.
    Done,
    /// A signal came, or the idle rule ended it.
    Broken,
}
