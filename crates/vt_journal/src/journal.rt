use crate::{Entries, Tail};

/// A journal that was read from a text.
#[derive(Debug, Drop)]
pub struct Journal {
    /// The version of the text, 1 or 2.
    pub version: u8,
    pub entries: Entries,
    pub tail: Tail,
}
