//! The codes of faults in a journal text, by their numbers in docs/reference/journal.md.

/// No first line.
pub(crate) const NO_FIRST: u16 = 40;

/// A line that isn't of the form.
pub(crate) const BAD_LINE: u16 = 41;

/// No last line.
pub(crate) const NO_LAST: u16 = 42;

/// Text after the last line.
pub(crate) const MORE: u16 = 43;

/// More entries than there may be.
pub(crate) const TOO_MANY: u16 = 44;
