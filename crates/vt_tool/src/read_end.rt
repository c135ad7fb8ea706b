ghost use Rattle.std.specs.Prelude.{◌≡◌};
ghost use Rattle.vt_tool.specs.declared.read_end.ReadEnd.TheVariants.{Fault, NoMemory};

use vt_base::NoMemory;
use vt_io::Failed;

/// Why an input wasn't read whole.
#[derive(Clone, Copy)]
pub(crate) enum ReadEnd {
    /// The source failed.
    Fault,
    /// The source has more bytes than the limit.
    TooLong,
    /// Memory ran out.
    NoMemory,
}

impl From<Failed> for ReadEnd {
    ghost from_gives = { λ _ end. end ≡ Fault };

    fn from(_failed: Failed) -> ReadEnd {
        ReadEnd::Fault
    }
}

impl From<NoMemory> for ReadEnd {
    ghost from_gives = { λ _ end. end ≡ NoMemory };

    fn from(_no_memory: NoMemory) -> ReadEnd {
        ReadEnd::NoMemory
    }
}
