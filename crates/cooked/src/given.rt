use vt_base::Signal;

/// The result of one pushed byte for the reader.
#[derive(Clone, Copy, Debug, PartialEq, Eq)]
pub enum Given {
    Nothing,
    /// A line, which [`Cooked::line`](crate::Cooked::line) has until the next push.
    Line,
    /// A byte at once: ICANON is off.
    Byte(u8),
    Sig(Signal),
}
