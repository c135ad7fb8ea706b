use vt_cells::Attr;

/// The cursor as DECSC saves it, with its pen and its modes (console_codes(4), "ESC 7").
#[derive(Clone, Copy, Debug)]
pub struct Saved {
    pub x: u8,
    pub y: u8,
    /// The pen's attributes.
    pub attr: Attr,
    pub g0: u8,
    pub g1: u8,
    pub shift: u8,
}
