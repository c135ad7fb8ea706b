ghost use Rattle.std.specs.Prelude.{◌≡◌, ◌≤◌, length};
ghost use Rattle.machine_c.specs.Shown.{c_reply, plain_answer};
ghost use Rattle.vt_events.specs.Charge.{text_of_reply};

use vt_events::Reply;

/// `struct vt_reply`: the answer to a call.
#[repr(C)]
#[derive(Clone, Copy, Debug, PartialEq)]
pub(crate) struct VtReply {
    /// The consoles that are allocated, or a set of signals.
    pub mask: u64,
    /// How many bytes the answer has.
    pub length: u32,
    /// A number, the console in front, or an error.
    pub number: u32,
    /// The words of a mode; the kind and the value of an action.
    pub words: [u16; 6],
    /// The kind: 0 ok, 1 num, 2 state, 3 bytes, 4 mode, 5 act, 6 wait, 7 sigs, 8 err.
    pub kind: u8,
    /// 0.
    pub spare: [u8; 19],
}

impl VtReply {
    pub(crate) fn of(reply: &Reply) -> VtReply
        requires { length (text_of_reply reply.now) ≤ 260_100 }
        ensures { result ≡ c_reply reply.now }
    {
        match reply {
            Reply::Done => VtReply::plain(0, 0, 0),
            Reply::Num(n) => VtReply::plain(1, *n, 0),
            Reply::State { front, mask } => VtReply::plain(2, u32::from(*front), *mask),
            Reply::Text(b) => VtReply {
                length: b.as_slice().len() as u32,
                ..VtReply::plain(3, 0, 0)
            },
            Reply::Mode(m) => VtReply {
                words: [m.mode, m.waitv, m.relsig, m.acqsig, m.frsig, 0],
                ..VtReply::plain(4, 0, 0)
            },
            Reply::Act { kind, value } => VtReply {
                words: [u16::from(*kind), *value, 0, 0, 0, 0],
                ..VtReply::plain(5, 0, 0)
            },
            Reply::Wait => VtReply::plain(6, 0, 0),
            Reply::Sigs(signals) => VtReply::plain(7, 0, signals.bits()),
            Reply::Err(errno) => VtReply::plain(8, u32::from(errno.number()), 0),
        }
    }

    // An answer with neither bytes nor words.
    fn plain(kind: u8, number: u32, mask: u64) -> VtReply
        ensures { result ≡ plain_answer kind number mask }
    {
        VtReply {
            mask,
            length: 0,
            number,
            words: [0; 6],
            kind,
            spare: [0; 19],
        }
    }
}
