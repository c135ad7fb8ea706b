/// The first fault of a journal text: its kind, and the last line that was read, from 1, or 0 if there
/// is no first line.
#[derive(Clone, Copy, Debug, PartialEq, Eq)]
pub struct JFault {
    pub kind: u16,
    pub line: u32,
}
