//! The keyboard flags, by their weights (ioctl_console(2), KDSKBLED).

/// ScrollLock.
pub const SCROLL: u8 = 1;

/// NumLock.
pub const NUM: u8 = 2;

/// CapsLock.
pub const CAPS: u8 = 4;
