ghost use Rattle.std.specs.Prelude.{◌≡◌};
ghost use Rattle.vt_tool.specs.Status.{number_of};

use vt_journal::Full;

/// The end of a run of the program.
#[derive(Clone, Copy, PartialEq, Eq)]
pub enum Status {
    /// The whole text is written.
    Fine,
    /// The words are no command.
    Usage,
    /// The source failed.
    ReadFault,
    /// A write to standard output or standard error failed.
    WriteFault,
    /// Memory ran out.
    NoMemory,
    /// The input has a fault: the kind of the first one, and its place.
    Refused { code: u16, a: u32, b: u32 },
    /// The source has more bytes than the command reads.
    TooLong,
    /// A call found no room in the journal.
    JournalFull(Full),
    /// The journal is not legal: the first entry that fails, and the reason's number.
    Illegal { index: u32, why: u8 },
}

impl Status {
    /// The exit status of the program.
    pub fn number(self) -> u8
        ensures { result ≡ number_of self }
    {
        match self {
            Status::Fine => 0,
            Status::Usage => 1,
            Status::ReadFault => 2,
            Status::WriteFault => 3,
            Status::NoMemory => 4,
            Status::Refused { .. } => 5,
            Status::TooLong => 6,
            Status::JournalFull(_) => 7,
            Status::Illegal { .. } => 8,
        }
    }
}
