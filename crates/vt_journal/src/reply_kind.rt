ghost use Rattle.std.specs.Prelude.{◌≡◌, ◌≢◌, ⊤, IfSome, IfNone};
ghost use Rattle.vt_events.specs.declared.reply.Reply.{Reply};
ghost use Rattle.vt_journal.specs.Replies.{IsAnswer, Within, kind_of, mosts, reply_holds, reply_name, reply_numbers};
ghost use Rattle.vt_journal.specs.Readers.{Finds};
ghost use Rattle.vt_journal.specs.declared.reply_kind.ReplyKind.{ReplyKind};

use vt_base::{Bytes, Errno, SigSet, VtMode};
use vt_events::Reply;

const MOST_BYTE: u64 = 255;

const MOST_WORD: u64 = 65_535;

const MOST_LONG: u64 = 4_294_967_295;

/// The kind of an answer, named as its variant of [`Reply`].
#[derive(Clone, Copy, PartialEq, Eq)]
pub(crate) enum ReplyKind {
    Done,
    Num,
    State,
    Text,
    Mode,
    Act,
    Wait,
    Sigs,
    Err,
}

impl ReplyKind {
    /// The kind of the answers of this name.
    pub(crate) fn named(name: &[u8]) -> Option<ReplyKind>
        ensures { Finds reply_name (λ _. ⊤) name.now result }
    {
        if name == b"ok".as_slice() {
            return Some(ReplyKind::Done);
        }
        if name == b"num".as_slice() {
            return Some(ReplyKind::Num);
        }
        if name == b"sigs".as_slice() {
            return Some(ReplyKind::Sigs);
        }
        if name == b"state".as_slice() {
            return Some(ReplyKind::State);
        }
        if name == b"bytes".as_slice() {
            return Some(ReplyKind::Text);
        }
        if name == b"mode".as_slice() {
            return Some(ReplyKind::Mode);
        }
        if name == b"act".as_slice() {
            return Some(ReplyKind::Act);
        }
        if name == b"wait".as_slice() {
            return Some(ReplyKind::Wait);
        }
        if name == b"err".as_slice() {
            return Some(ReplyKind::Err);
        }
        None
    }

    /// The greatest value of each of its numbers.
    pub(crate) fn mosts(self) -> &'static [u64]
        ensures { result.now ≡ mosts self }
    {
        match self {
            ReplyKind::Done | ReplyKind::Text | ReplyKind::Wait => &[],
            ReplyKind::Num => &[MOST_LONG],
            ReplyKind::State => &[MOST_BYTE, u64::MAX],
            ReplyKind::Mode => &[MOST_WORD, MOST_WORD, MOST_WORD, MOST_WORD, MOST_WORD],
            ReplyKind::Act => &[MOST_BYTE, MOST_WORD],
            ReplyKind::Sigs => &[u64::MAX],
            ReplyKind::Err => &[MOST_WORD],
        }
    }

    /// Whether bytes follow the numbers.
    pub(crate) fn holds_bytes(self) -> bool
        ensures { result ≡ reply_holds self }
    {
        match self {
            ReplyKind::Text => true,
            _ => false,
        }
    }

    /// The answer of this kind with these numbers and, if it holds bytes, these bytes; `None` if the number of a
    /// refusal is not that of an error.
    pub(crate) fn answer(self, n: &[u64], b: Bytes) -> Option<Reply>
        requires numbers { Within (mosts self) n.now }
        requires room { b.room ≡ 0 }
        ensures found { IfSome result (IsAnswer self n.now b.bytes) }
        ensures none { IfNone result
            ((r : Reply) → kind_of r ≡ self → reply_numbers r ≢ n.now) }
    {
        match self {
            ReplyKind::Done => Some(Reply::Done),
            ReplyKind::Num => Some(Reply::Num(n[0] as u32)),
            ReplyKind::State => Some(Reply::State {
                front: n[0] as u8,
                mask: n[1],
            }),
            ReplyKind::Text => Some(Reply::Text(b)),
            ReplyKind::Mode => Some(Reply::Mode(VtMode {
                mode: n[0] as u16,
                waitv: n[1] as u16,
                relsig: n[2] as u16,
                acqsig: n[3] as u16,
                frsig: n[4] as u16,
            })),
            ReplyKind::Act => Some(Reply::Act {
                kind: n[0] as u8,
                value: n[1] as u16,
            }),
            ReplyKind::Wait => Some(Reply::Wait),
            ReplyKind::Sigs => Some(Reply::Sigs(SigSet::from_bits(n[0]))),
            ReplyKind::Err => error_of(n),
        }
    }
}

// The refusal of this number, if it is that of an error.
fn error_of(n: &[u64]) -> Option<Reply>
    requires { Within (mosts ReplyKind.Err) n.now }
    ensures found { IfSome result (λ r. (kind_of r ≡ ReplyKind.Err) × (reply_numbers r ≡ n.now)) }
    ensures none { IfNone result
        ((r : Reply) → kind_of r ≡ ReplyKind.Err → reply_numbers r ≢ n.now) }
{
    match Errno::of(n[0] as u16) {
        Some(errno) => Some(Reply::Err(errno)),
        None => None,
    }
}
