/// The kind of a byte for the line discipline.
#[derive(Clone, Copy, PartialEq, Eq)]
pub(crate) enum Kind {
    Interrupt,
    Quit,
    Kill,
    Erase,
    Eof,
    End,
    Data,
}
