use crate::Full;

/// The end of a journal.
#[derive(Clone, Copy, Debug, PartialEq, Eq)]
pub enum Tail {
    /// Every call was entered.
    End {
        /// The number of entries.
        events: u32,
        /// The sum of their charges, in bytes.
        bytes: u64,
    },
    /// A call found no room.
    Full(Full),
}
