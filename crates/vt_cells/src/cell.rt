/// One cell of a screen: a character and its attributes.
#[derive(Clone, Copy, Debug, PartialEq, Eq)]
pub struct Cell {
    /// The character's code point.
    pub code: u32,
    /// The attribute byte of a VGA text cell: the colour of the character in bits 0 to 2, bright in bit
    /// 3, the colour of the background in bits 4 to 6, blink in bit 7. The lowest bit of a colour is
    /// blue, the next one green, and the highest red.
    pub attr: u8,
}
