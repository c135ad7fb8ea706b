/// The verdict on a journal of programs without a text (docs/reference/watch.md). This project's own.
#[derive(Clone, Copy, PartialEq, Eq)]
pub enum FreeVerdict {
    /// The entries are a legal history of the start, and the last line is theirs.
    Legal,
    /// They aren't.
    Illegal {
        /// The first entry that fails, from 0, or the number of entries if none fails.
        index: u32,
        /// The number of the first reason there, as in the verdict on a session's journal: 1 and 3 at an entry, 5 at
        /// the end.
        why: u8,
    },
}
