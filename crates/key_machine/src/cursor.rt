//! The cursor keys, by the values of docs/reference/keys.md.

/// Down.
pub(crate) const DOWN: u16 = 0;

/// Left.
pub(crate) const LEFT: u16 = 1;

/// Right.
pub(crate) const RIGHT: u16 = 2;

/// Up.
pub(crate) const UP: u16 = 3;
