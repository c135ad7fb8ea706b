//! The function keys of the cursor pad, by the values of docs/reference/keys.md.

/// Find, also named Home.
pub(crate) const FIND: u8 = 20;

/// Insert.
pub(crate) const INSERT: u8 = 21;

/// Remove.
pub(crate) const REMOVE: u8 = 22;

/// Select, also named End.
pub(crate) const SELECT: u8 = 23;

/// Prior, also named PageUp.
pub(crate) const PRIOR: u8 = 24;

/// Next, also named PageDown.
pub(crate) const NEXT: u8 = 25;
