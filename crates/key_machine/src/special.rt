//! The special actions that do something, by the values of docs/reference/keys.md.

/// CR.
pub(crate) const RETURN: u16 = 1;

/// The flag Caps changes.
pub(crate) const CAPS_LOCK: u16 = 2;

/// The flag Num changes, or PF1 of the pad is sent.
pub(crate) const NUM_LOCK: u16 = 3;

/// The flag Scroll changes.
pub(crate) const SCROLL_LOCK: u16 = 4;

/// A switch to the console that was in front before.
pub(crate) const LAST_CONSOLE: u16 = 5;

/// A switch to the next console.
pub(crate) const INCR_CONSOLE: u16 = 6;

/// A switch to the previous console.
pub(crate) const DECR_CONSOLE: u16 = 7;

/// A signal to the process that accepts it.
pub(crate) const KEYBOARD_SIGNAL: u16 = 8;

/// The secure attention key.
pub(crate) const SAK: u16 = 9;

/// The next character waits as an accent.
pub(crate) const COMPOSE: u16 = 10;

/// The flag Num changes.
pub(crate) const BARE_NUM_LOCK: u16 = 11;

/// The flag Caps is set.
pub(crate) const CAPS_ON: u16 = 12;
