//! Rows of a test of a machine: a call with its answer, or a fact to be seen of the machine.
/// A call of a machine, or a fact to be seen of it.
#[derive(Clone, Copy)]
pub(crate) enum Row {
    /// A caller makes this call, and gets this answer.
    Call(u16, &'static str, &'static str),
    /// The keyboard makes this call, and then this console is in front.
    Keyed(&'static str, u16),
    /// The marks of the last event: hundreds for its kind, and a console or a caller.
    Marks(&'static [u16]),
    /// The console in front.
    Front(u16),
    /// The switches since the start.
    Hops(u64),
    /// Whether a caller waits.
    Waits(u16, bool),
    /// A console's queue: its bytes, and how many pieces it dropped.
    Queue(u16, &'static [u8], u32),
    /// A console's queue: the number of its bytes, and how many pieces it dropped.
    Queued(u16, usize, u32),
    /// Whether a console has a screen.
    Drawn(u16, bool),
    /// The rows and columns of a new screen.
    Sized(u8, u8),
}

impl Row {
    /// The name of the row in a message: the words of a call, or the fact.
    pub(crate) fn words(self) -> &'static str {
        match self {
            Row::Call(_, words, _) | Row::Keyed(words, _) => words,
            Row::Marks(_) => "the marks",
            Row::Front(_) => "the console in front",
            Row::Hops(_) => "the hops",
            Row::Waits(..) => "who waits",
            Row::Queue(..) | Row::Queued(..) => "a queue",
            Row::Drawn(..) => "a screen",
            Row::Sized(..) => "the size",
        }
    }
}
