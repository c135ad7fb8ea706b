//! The place of a caller at the door, for proofs. No value of this type is made.

/// What a caller at the door knows of the counts.
pub(crate) enum AtDoor {
    /// It drew no number, and knows nothing of the counts.
    Away,
    /// It has this number.
    Waits(u64),
    /// It has this number, which was called in.
    Called(u64),
    /// It came in.
    Entered,
    /// It read that so many came in.
    ReadsEntered(u64),
    /// It read that so many came in, and that there are more.
    MayCall(u64),
}
