/// The verdict on a journal of a session (docs/reference/journal.md). This project's own.
#[derive(Clone, Copy, Debug, PartialEq, Eq)]
pub enum Verdict {
    /// It is legal, follows the session's programs and ends as it has to.
    Legal,
    /// It fails.
    Illegal {
        /// The first entry that fails, from 0, or the number of entries if none fails.
        index: u32,
        /// The number of the first reason there: 1 to 3 and 5 at an entry, 4 and 5 at the end.
        why: u8,
    },
}
