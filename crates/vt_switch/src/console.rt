use crate::Handling;

/// The state of an allocated console in the switch.
#[derive(Clone, Copy, Debug, PartialEq, Eq)]
pub struct Console {
    /// KD_GRAPHICS: the display shows graphics and no text.
    pub graphics: bool,
    pub handling: Handling,
}
