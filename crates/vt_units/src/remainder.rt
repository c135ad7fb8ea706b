/// The part of the pending bytes that is left before a byte that may end them.
#[derive(Debug, Clone, Copy, PartialEq, Eq)]
pub(crate) enum Remainder {
    /// All of them.
    All,
    /// None.
    Nothing,
    /// None, and they were malformed.
    Malformed,
    /// All of them, with the mode of this byte.
    AllInNewMode,
    /// The ESC at their end.
    Escape,
}
