use crate::adding::{add, add_number};
use std::alloc::{AllocError, Global};
use vt_base::{Bytes, NoMemory};

/// Why the program ends without its output.
#[derive(Clone, Copy, Drop)]
pub(crate) enum Failure {
    Usage,
    /// A question that can't be read: its number, and that of the word at fault, both from 1.
    Question { question: usize, word: usize },
    ReadFault,
    WriteFault,
    NoMemory,
    TooLong,
    /// The session has a fault: its code and its place.
    Refused { code: u16, a: u32, b: u32 },
}

impl Failure {
    /// The exit status (docs/reference/codes.md).
    pub(crate) fn status(self) -> u8 {
        let (status, _) = self.told();
        status
    }

    /// The line on standard error.
    pub(crate) fn line(self, alloc: Global) -> Result<Bytes, NoMemory> {
        let (_, words) = self.told();
        let mut text = Bytes::new(alloc);
        add(alloc, &mut text, words)?;
        match self {
            Failure::Question { question, word } => {
                add_pair(alloc, &mut text, b" ", question as u64, word as u64)?;
                add(alloc, &mut text, KNOWN)?;
            }
            Failure::Refused { code, a, b } => {
                add(alloc, &mut text, b" ")?;
                add_number(alloc, &mut text, u64::from(code))?;
                add_pair(alloc, &mut text, b" at ", u64::from(a), u64::from(b))?;
            }
            _ => {}
        }
        add(alloc, &mut text, b"\n")?;
        Ok(text)
    }

    // The exit status, and the words of the line before its numbers.
    fn told(self) -> (u8, &'static [u8]) {
        match self {
            Failure::Usage => (
                1,
                b"explore: usage: explore [--json] [--states N] [QUESTION ..]",
            ),
            Failure::Question { .. } => (1, b"explore: no question"),
            Failure::ReadFault => (2, b"explore: read failed"),
            Failure::WriteFault => (3, b"explore: write failed"),
            Failure::NoMemory => (4, b"explore: no memory"),
            Failure::Refused { .. } => (5, b"explore: refused"),
            Failure::TooLong => (6, b"explore: input too long"),
        }
    }
}

/// The words of questions.
const KNOWN: &[u8] =
    b"; the words are: by P, call WORDS, = WORDS, front N, pending [N], graphics N, owner N [P], locked, \
lives P, waiting P, signals P [S], open P N, shows N \"TEXT\", ended, stuck, waits P, refused P [ERRNO [CALL]], ends N, blind P N, \
false-ack P N, and, not";

fn add_pair(
    alloc: Global,
    text: &mut Bytes,
    before: &[u8],
    a: u64,
    b: u64,
) -> Result<(), NoMemory> {
    add(alloc, text, before)?;
    add_number(alloc, text, a)?;
    add(alloc, text, b":")?;
    add_number(alloc, text, b)
}

impl From<NoMemory> for Failure {
    fn from(_: NoMemory) -> Failure {
        Failure::NoMemory
    }
}

impl From<AllocError> for Failure {
    fn from(_: AllocError) -> Failure {
        Failure::NoMemory
    }
}
