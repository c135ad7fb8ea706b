use vt_base::Bytes;

/// The result of a review of a journal.
#[derive(Drop)]
pub enum Reviewed {
    /// The journal is legal: the lines of its ears.
    Text(Bytes),
    /// The journal is not legal: the first entry that fails, and why (`vt_check::Verdict`).
    Illegal { index: u32, why: u8 },
}
