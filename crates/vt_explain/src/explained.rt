use crate::HopWhy;

/// Why the display changed hands in a journal (docs/reference/explain.md). This project's own.
#[derive(Drop)]
pub enum Explained {
    /// The journal is legal: the certificate of its switches.
    Cert(Vec<HopWhy>),
    /// The journal is not legal.
    Illegal {
        /// The first entry that fails, as in the verdict.
        index: u32,
        /// The number of the first reason there.
        why: u8,
    },
}
