use vt_base::{CallerNo, ConsoleNo, Signal};

/// A piece of a text.
#[derive(Clone, Copy)]
pub(crate) enum Piece<'a> {
    /// These bytes.
    Text(&'a [u8]),
    /// Of two texts, the one of the form: in lines, and in JSON.
    ByForm(&'a [u8], &'a [u8]),
    /// The list whose elements these are, each with a separator of one byte before it.
    List(&'a [u8]),
    /// The caller's word.
    Caller(CallerNo),
    /// The console's number.
    Console(ConsoleNo),
    /// The signal's number.
    Signal(Signal),
    /// The number of an entry, or a count.
    Number(u32),
}
