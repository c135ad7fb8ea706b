//! How many there are of each thing in a keymap, and the longest function string.

/// The number of tables. Their numbers begin with 0.
pub const TABLE_COUNT: usize = 256;

/// The number of keycodes. They begin with 0.
pub const KEYCODES: usize = 256;

/// The number of function strings. Their numbers begin with 0.
pub const STRING_COUNT: usize = 256;

/// The most bytes of a function string.
pub const STRING_BYTES: usize = 255;

/// The most pairs.
pub const PAIR_COUNT: usize = 256;
