/// The judgement on a list of items for a journal (docs/reference/explain.md). This project's own.
#[derive(Clone, Copy, Debug, PartialEq, Eq)]
pub enum Judged {
    /// The journal is legal, and the list is the certificate of its switches.
    Yes,
    /// The journal is legal, and the list isn't its certificate.
    No {
        /// The first item that isn't good, or, if all items are good as far as both lists go, the smaller of
        /// the numbers of items and switches.
        index: u32,
    },
    /// The journal isn't legal.
    Illegal {
        /// The first entry that fails, as in the verdict.
        index: u32,
        /// The number of the first reason there.
        why: u8,
    },
}
