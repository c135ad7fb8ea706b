//! The kinds of actions, by their numbers in docs/reference/keys.md.

/// No action.
pub const HOLE: u8 = 0;

/// A character, by its code.
pub const CHARACTER: u8 = 1;

/// A character that obeys CapsLock.
pub const LETTER: u8 = 2;

/// An ASCII character with Meta.
pub const META: u8 = 3;

/// A function key: it sends its string.
pub const FUNCTION: u8 = 4;

/// A key of the numeric pad.
pub const PAD: u8 = 5;

/// A cursor key.
pub const CURSOR: u8 = 6;

/// A dead key: an accent that waits for a character.
pub const DEAD: u8 = 7;

/// A modifier. Its weight is 2 to the power of the value.
pub const MODIFIER: u8 = 8;

/// A modifier that stays on until the key is pressed again.
pub const LOCK: u8 = 9;

/// A modifier for the next key alone.
pub const STICKY: u8 = 10;

/// A switch to a console.
pub const CONSOLE: u8 = 11;

/// One of the special actions.
pub const SPECIAL: u8 = 12;

/// A decimal digit of a character's code.
pub const ASCII: u8 = 13;
