/// The result of one more byte after the bytes that are pending (Unicode, Table 3-7).
#[derive(Debug, Clone, Copy, PartialEq, Eq)]
pub enum Got {
    /// A character, by its code point.
    Char(u32),
    /// This byte alone is malformed: one U+FFFD stands for it.
    Bad,
    /// The bytes before this one are malformed: one U+FFFD stands for them, and this byte has to be
    /// read again.
    BadThen,
    /// The sequence isn't finished.
    More,
}
