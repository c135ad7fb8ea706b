/// A sequence at the start of a text, and the number of its bytes.
#[derive(Debug, Clone, Copy, PartialEq, Eq)]
pub enum WholeSequence {
    /// No sequence that is read at once.
    Nothing,
    /// An escape sequence: its intermediate byte, or 0 if there is none, and its final byte.
    Esc {
        mid: u8,
        last: u8,
        count: usize,
    },
    /// A control sequence: whether it begins with `?`, and its last byte.
    Csi {
        private: bool,
        last: u8,
        count: usize,
    },
}
