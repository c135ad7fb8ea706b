use crate::Params;

/// A unit: the meaning of a text (console_codes(4)).
#[derive(Debug, Drop)]
pub enum Unit {
    /// A character, by its code point. U+FFFD stands for malformed bytes.
    Char(u32),
    /// A byte whose character is that of a byte table.
    Byte(u8),
    /// A control character.
    Control(u8),
    /// An escape sequence: its intermediate byte, or 0 if there is none, and its final byte.
    Esc {
        mid: u8,
        last: u8,
    },
    /// A control sequence (CSI): whether it begins with `?`, its parameters and its final byte.
    Csi {
        private: bool,
        params: Params,
        last: u8,
    },
    /// ESC ] P: colour `n` of the palette is set to red, green and blue.
    Colour {
        n: u8,
        rgb: (u8, u8, u8),
    },
    /// ESC ] R: the palette becomes the one of the start.
    ColourReset,
    /// A text without effect: a string, or a sequence that is no other unit.
    Ignored,
}
