/// How bytes are read (console_codes(4), "Character sets").
#[derive(Debug, Clone, Copy, PartialEq, Eq)]
pub struct Mode {
    /// Whether text is UTF-8; otherwise each byte is a character.
    pub utf8: bool,
    /// DECCRM: whether most control characters are shown.
    pub display: bool,
}
