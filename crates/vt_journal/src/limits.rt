/// The limits of a journal. This project's own.
#[derive(Clone, Copy, Debug, PartialEq, Eq)]
pub struct Limits {
    /// The most entries.
    pub events: u32,
    /// The greatest sum of the charges of the entries, in bytes.
    pub bytes: u64,
}
