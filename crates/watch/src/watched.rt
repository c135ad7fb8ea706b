use vt_base::Bytes;

/// The result of watching a journal of a session.
#[derive(Drop)]
pub(crate) enum Watched {
    /// The journal is legal: the text with the facts of each entry.
    Text(Bytes),
    /// The journal isn't legal.
    Illegal {
        /// The first entry that fails, as in the verdict.
        index: u32,
        /// The number of the first reason there.
        why: u8,
    },
}
