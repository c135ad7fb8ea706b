//! The kinds of faults in a keymap, by their numbers in docs/reference/keys.md.

/// A word that isn't allowed there.
pub const UNKNOWN_WORD: u16 = 1;

/// A symbol that isn't known or isn't allowed there.
pub const UNKNOWN_SYMBOL: u16 = 2;

/// A number out of its range, or a range in reverse.
pub const OUT_OF_RANGE: u16 = 3;

/// No symbols, or more than there are tables.
pub const WRONG_COUNT: u16 = 4;

/// A keymaps line after a key line.
pub const LATE_KEYMAPS: u16 = 5;

/// A bad quoted text, or bytes that aren't UTF-8.
pub const BAD_TEXT: u16 = 6;

/// An include of a text that wasn't given.
pub const NOT_GIVEN: u16 = 7;

/// Includes that are nested too deep.
pub const TOO_DEEP: u16 = 8;

/// Further words after the end of the line's grammar.
pub const LEFT_OVER: u16 = 9;

/// Too many pairs.
pub const TOO_MANY_PAIRS: u16 = 10;

/// A string that is too long.
pub const LONG_STRING: u16 = 11;

/// Too many included texts.
pub const TOO_MANY_INCLUDES: u16 = 12;

/// Included texts with more bytes together than is allowed.
pub const TOO_LONG_INCLUDES: u16 = 13;
