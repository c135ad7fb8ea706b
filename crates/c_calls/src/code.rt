//! The codes that calls return to C: `enum vt_code` of `libvt/include/vt.h`.

/// The call succeeded.
pub const OK: u8 = 0;

/// The handle has something already, or the process can't be given to this program.
pub const MADE: u8 = 1;

/// A number is out of its range.
pub const RANGE: u8 = 2;

/// Memory ran out.
pub const NO_MEMORY: u8 = 3;

/// The handle has nothing: it was never made, or it was freed.
pub const NOTHING: u8 = 4;

/// The room is too small.
pub const NO_ROOM: u8 = 5;

/// The keymap has a fault.
pub const FAULT: u8 = 6;

/// No text draws this screen.
pub const NOT_DRAWABLE: u8 = 7;

/// The journal has no room for the call.
pub const FULL: u8 = 8;
