/// The state of the parser after the pending bytes, so that no byte is read twice.
#[derive(Debug, Clone, Copy, PartialEq, Eq)]
pub(crate) enum ParserState {
    /// No bytes are pending.
    Ground,
    /// The beginning of a character.
    Utf8,
    /// ESC, and intermediate bytes.
    Escape,
    /// CSI, and a body.
    Control,
    /// CSI [
    CsiBracket,
    /// ESC ]
    Osc,
    /// ESC ] P, and digits of a colour.
    Palette,
    /// The bytes that open a string.
    ControlString,
    /// The bytes that open a string, and ESC.
    StringEscape,
}
