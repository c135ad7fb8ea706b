/// A key goes down or up. A key that is held gives further events that it goes down.
#[derive(Clone, Copy, Debug, PartialEq, Eq)]
pub struct KeyEvent {
    /// The keycode, from 1.
    pub code: u8,
    /// Whether the key goes down.
    pub down: bool,
}
