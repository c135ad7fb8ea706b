//! The keyboard modes, by their numbers (ioctl_console(2), KDSKBMODE).

/// K_RAW: scan bytes.
pub const RAW: u8 = 0;

/// K_XLATE: characters of one byte.
pub const XLATE: u8 = 1;

/// K_MEDIUMRAW: keycodes.
pub const MEDIUMRAW: u8 = 2;

/// K_UNICODE: characters in UTF-8.
pub const UNICODE: u8 = 3;

/// K_OFF: nothing.
pub const OFF: u8 = 4;
