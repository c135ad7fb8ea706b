use std::alloc::Global;
use vt_base::{Bytes, Errno, NoMemory, SigSet, VtMode};
use vt_events::Reply;

/// An answer, with its bytes as a literal.
#[derive(Clone, Copy)]
pub(crate) enum Answer {
    Done,
    Num(u32),
    State(u8, u64),
    Text(&'static [u8]),
    Mode(VtMode),
    Act(u8, u16),
    Wait,
    Sigs(u64),
    Err(Errno),
}

impl Answer {
    /// The answer itself.
    pub(crate) fn reply(self, alloc: Global) -> Result<Reply, NoMemory> {
        match self {
            Answer::Text(b) => Ok(Reply::Text(Bytes::from_slice(alloc, b)?)),
            other => Ok(other.plain()),
        }
    }

    // The answer itself, if it has no bytes.
    fn plain(self) -> Reply {
        match self {
            Answer::Done | Answer::Text(_) => Reply::Done,
            Answer::Num(n) => Reply::Num(n),
            Answer::State(front, mask) => Reply::State { front, mask },
            Answer::Mode(mode) => Reply::Mode(mode),
            Answer::Act(kind, value) => Reply::Act { kind, value },
            Answer::Wait => Reply::Wait,
            Answer::Sigs(bits) => Reply::Sigs(SigSet::from_bits(bits)),
            Answer::Err(errno) => Reply::Err(errno),
        }
    }
}
