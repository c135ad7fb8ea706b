use crate::parser_state::ParserState;

/// The effect of a byte on the pending bytes: they stay, grow or are cleared.
#[derive(Debug, Clone, Copy, PartialEq, Eq)]
pub(crate) enum Step {
    /// They stay.
    Keep,
    /// The byte is added, and the stage is then this one.
    Grow(ParserState),
    /// No bytes are left.
    Clear,
}
