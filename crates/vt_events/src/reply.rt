ghost use Rattle.std.specs.Prelude.{◌≡◌, ◌≤◌, length};
ghost use Rattle.vt_events.specs.Charge.{text_of_reply};
ghost use Rattle.vt_events.specs.Plain.{plain_reply};

use vt_base::{Bytes, Errno, SigSet, VtMode};

/// The answer to a call.
#[derive(Debug, Drop)]
pub enum Reply {
    /// `ok`: the call is done.
    Done,
    /// `num N`: a number.
    Num(u32),
    /// `state F M`: the consoles, in two words (ioctl_console(2), VT_GETSTATE).
    State {
        /// The console in front.
        front: u8,
        /// The consoles that are allocated: bit n stands for console n.
        mask: u64,
    },
    /// `bytes B`: bytes.
    Text(Bytes),
    /// `mode M W R A F`: the mode of a console (ioctl_console(2), VT_GETMODE).
    Mode(VtMode),
    /// `act K V`: the action of a key (ioctl_console(2), KDGKBENT).
    Act {
        /// The kind of its action.
        kind: u8,
        /// The action among those of its kind.
        value: u16,
    },
    /// `wait`: the caller waits. `waitend` returns how the wait ended.
    Wait,
    /// `sigs N`: a set of signals as a number: bit s - 1 is 1 if signal s is in the set.
    Sigs(SigSet),
    /// `err N`: why the call is refused.
    Err(Errno),
}

impl Reply {
    /// A copy of the answer. Its bytes go into the room that is given, whose own bytes are dropped.
    pub fn copy_into(&self, room: Bytes) -> Reply
        requires { length (text_of_reply self.now) ≤ room.room }
        ensures { plain_reply result ≡ plain_reply self.now }
    {
        match self {
            Reply::Done => Reply::Done,
            Reply::Num(n) => Reply::Num(*n),
            Reply::State { front, mask } => Reply::State {
                front: *front,
                mask: *mask,
            },
            Reply::Text(b) => {
                let mut room = room;
                room.truncate(0);
                room.append(b.as_slice());
                Reply::Text(room)
            }
            Reply::Mode(mode) => Reply::Mode(*mode),
            Reply::Act { kind, value } => Reply::Act {
                kind: *kind,
                value: *value,
            },
            Reply::Wait => Reply::Wait,
            Reply::Sigs(signals) => Reply::Sigs(*signals),
            Reply::Err(errno) => Reply::Err(*errno),
        }
    }
}
