//! The uses of Meta, by their numbers (ioctl_console(2), KDSKBMETA).

/// K_METABIT: the character with the high bit.
pub const METABIT: u8 = 3;

/// K_ESCPREFIX: ESC and the character.
pub const ESCPREFIX: u8 = 4;
