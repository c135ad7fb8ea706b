use crate::Tail;
use vt_events::Entry;

/// The first line of a text, and the text after it.
#[derive(Drop)]
pub(crate) enum FirstLine<'a> {
    /// The line of an entry.
    Entry(Entry, &'a [u8]),
    /// A last line.
    Tail(Tail, &'a [u8]),
    /// Neither.
    Other,
}
