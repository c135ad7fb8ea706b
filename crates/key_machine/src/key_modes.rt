/// The modes of a console's screen on which keys depend (console_codes(4)).
#[derive(Clone, Copy, Debug, PartialEq, Eq)]
pub struct KeyModes {
    /// DECCKM: cursor keys send ESC O.
    pub cursor: bool,
    /// DECPAM: the pad sends ESC O.
    pub keypad: bool,
    /// DECARM: keys that are held repeat.
    pub repeat: bool,
    /// LNM: Return and Enter send LF after CR.
    pub newline: bool,
}

/// The modes of a start screen: keys that are held repeat.
pub const START_MODES: KeyModes = KeyModes {
    cursor: false,
    keypad: false,
    repeat: true,
    newline: false,
};
