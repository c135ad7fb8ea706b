use crate::Then;

/// The answer for one byte: whether U+FFFD comes first, and what the byte came to.
#[derive(Debug, Drop)]
pub struct Read {
    /// Whether the bytes before this one are malformed: then U+FFFD comes before the result `got`.
    pub bad: bool,
    /// The result of this byte.
    pub got: Then,
}
