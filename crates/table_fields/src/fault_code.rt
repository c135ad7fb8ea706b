//! The codes of faults in a TOML table, by their numbers in docs/reference/sessions.md and docs/reference/keys.md.

/// A text that is no TOML document.
pub const NO_DOCUMENT: u16 = 20;

/// A key that isn't known.
pub const UNKNOWN_KEY: u16 = 21;

/// A value of a wrong kind.
pub const WRONG_KIND: u16 = 22;

/// A number out of its range.
pub const OUT_OF_RANGE: u16 = 23;

/// A keymap that is refused.
pub const KEYMAP: u16 = 24;

/// An item of a script.
pub const SCRIPT_ITEM: u16 = 25;

/// A hook.
pub const HOOK: u16 = 26;

/// A scan byte.
pub const SCAN_BYTE: u16 = 27;

/// A turn.
pub const TURN: u16 = 28;

/// More items than there may be.
pub const TOO_MANY: u16 = 29;

/// A scan byte of a further keyboard.
pub const FURTHER_SCAN_BYTE: u16 = 30;
