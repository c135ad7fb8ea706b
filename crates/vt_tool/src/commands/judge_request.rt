/// A request about a session and the text after it.
#[derive(Clone, Copy)]
pub(crate) enum JudgeRequest {
    /// The verdict on the journal.
    Verdict,
    /// The notices of the journal of these kinds, a bit for each, and of this console, or of all if
    /// it is 0.
    Review { kinds: u8, console: u8 },
    /// The reasons for the switches in the journal.
    Explanation,
    /// Whether the text after the journal is its certificate.
    Acceptance,
}
