use crate::adding::text_of;
use crate::form::Form;
use crate::piece::Piece;
use std::alloc::Global;
use vt_base::{Bytes, NoMemory};

/// Why the program ends without its output.
#[derive(Clone, Copy, Drop)]
pub(crate) enum Failure {
    Usage,
    ReadFault,
    WriteFault,
    NoMemory,
    TooLong,
    /// The session or the journal has a fault: its code and its place.
    Refused { code: u16, a: u32, b: u32 },
    /// The journal isn't a legal one of the session: the first entry that fails, and the number of the reason.
    Illegal { index: u32, why: u8 },
}

impl Failure {
    /// The exit status (docs/reference/codes.md).
    pub(crate) fn status(self) -> u8 {
        let (status, _) = self.told();
        status
    }

    /// The line on standard error.
    pub(crate) fn line(self, alloc: Global) -> Result<Bytes, NoMemory> {
        let (_, words) = self.told();
        match self {
            Failure::Refused { code, a, b } => text_of(
                alloc,
                Form::Lines,
                &[
                    Piece::Text(words),
                    Piece::Text(b" "),
                    Piece::Number(u32::from(code)),
                    Piece::Text(b" at "),
                    Piece::Number(a),
                    Piece::Text(b":"),
                    Piece::Number(b),
                    Piece::Text(b"\n"),
                ],
            ),
            Failure::Illegal { index, why } => text_of(
                alloc,
                Form::Lines,
                &[
                    Piece::Text(words),
                    Piece::Text(b" "),
                    Piece::Number(index),
                    Piece::Text(b" "),
                    Piece::Number(u32::from(why)),
                    Piece::Text(b"\n"),
                ],
            ),
            _ => text_of(
                alloc,
                Form::Lines,
                &[Piece::Text(words), Piece::Text(b"\n")],
            ),
        }
    }

    // The exit status, and the words of the line before its numbers.
    fn told(self) -> (u8, &'static [u8]) {
        match self {
            Failure::Usage => (1, b"watch: usage: watch [free] [json]"),
            Failure::ReadFault => (2, b"watch: read failed"),
            Failure::WriteFault => (3, b"watch: write failed"),
            Failure::NoMemory => (4, b"watch: no memory"),
            Failure::Refused { .. } => (5, b"watch: refused"),
            Failure::TooLong => (6, b"watch: input too long"),
            Failure::Illegal { .. } => (8, b"watch: illegal"),
        }
    }
}

impl From<NoMemory> for Failure {
    fn from(_: NoMemory) -> Failure {
        Failure::NoMemory
    }
}
