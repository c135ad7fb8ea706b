/// The end of the drawing of a source.
#[derive(Clone, Copy, Debug, PartialEq, Eq)]
pub enum Streamed {
    /// The source was read to its end.
    End,
    /// The source failed.
    Fault,
    /// The source has more bytes than the limit.
    TooLong,
}
