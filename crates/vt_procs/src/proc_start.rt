/// A process at the start.
#[derive(Clone, Copy, Debug, Default, PartialEq, Eq)]
pub struct ProcStart {
    /// The console that it may handle without privilege, from 1 to 63, or 0 for none.
    pub home: u8,
    /// Whether it may handle every console.
    pub privileged: bool,
}
