use vt_base::NoMemory;
use vt_io::Failed;

/// How the program ends.
#[derive(Clone, Copy, Drop)]
pub(crate) enum Ending {
    Fine,
    Usage,
    ReadFault,
    WriteFault,
    NoMemory,
}

impl Ending {
    /// The exit status.
    pub(crate) fn number(self) -> u8 {
        match self {
            Ending::Fine => 0,
            Ending::Usage => 1,
            Ending::ReadFault => 2,
            Ending::WriteFault => 3,
            Ending::NoMemory => 4,
        }
    }

    /// The line on standard error.
    pub(crate) fn line(self) -> &'static [u8] {
        match self {
            Ending::Fine => b"",
            Ending::Usage => b"picture: usage: picture R C\n",
            Ending::ReadFault => b"picture: read failed\n",
            Ending::WriteFault => b"picture: write failed\n",
            Ending::NoMemory => b"picture: no memory\n",
        }
    }
}

impl From<NoMemory> for Ending {
    fn from(_: NoMemory) -> Ending {
        Ending::NoMemory
    }
}

impl From<Failed> for Ending {
    fn from(_: Failed) -> Ending {
        Ending::ReadFault
    }
}
