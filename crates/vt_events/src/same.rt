//! Calls and answers compared.
ghost use Rattle.std.specs.Prelude.{◌≡◌, ◌↔◌, IsTrue, option_copied};
ghost use Rattle.vt_events.specs.Plain.{plain_event, plain_reply};

use crate::parts::Parts;
use crate::{Event, Reply};

/// Whether the calls are the same. The spare room of their bytes does not count.
pub fn same_event(d: &Event, e: &Event) -> bool
    ensures { IsTrue result ↔ (plain_event d.now ≡ plain_event e.now) }
{
    same_parts(&Parts::of(d), &Parts::of(e))
}

// Whether the parts are the same.
fn same_parts(p: &Parts, q: &Parts) -> bool
    ensures { IsTrue result ↔ (p.now ≡ q.now) }
{
    p.kind() == q.kind() && p.numbers() == q.numbers() && same_held(p.held(), q.held())
}

// Whether both are the same bytes, or neither is any.
fn same_held(a: Option<&[u8]>, b: Option<&[u8]>) -> bool
    ensures { IsTrue result ↔ (option_copied a.entry ≡ option_copied b.entry) }
{
    match a {
        None => b.is_none(),
        Some(x) => match b {
            Some(y) => x == y,
            None => false,
        },
    }
}

/// Whether the answers are the same. The spare room of their bytes does not count.
pub fn same_reply(r: &Reply, s: &Reply) -> bool
    ensures { IsTrue result ↔ (plain_reply r.now ≡ plain_reply s.now) }
{
    match (r, s) {
        (Reply::Done, Reply::Done) | (Reply::Wait, Reply::Wait) => true,
        (Reply::Num(m), Reply::Num(n)) => m == n,
        (
            Reply::State { front, mask },
            Reply::State {
                front: other,
                mask: others,
            },
        ) => front == other && mask == others,
        (Reply::Text(a), Reply::Text(b)) => a.as_slice() == b.as_slice(),
        (Reply::Mode(m), Reply::Mode(n)) => m == n,
        (
            Reply::Act { kind, value },
            Reply::Act {
                kind: other,
                value: of,
            },
        ) => kind == other && value == of,
        (Reply::Sigs(m), Reply::Sigs(n)) => m.bits() == n.bits(),
        (Reply::Err(d), Reply::Err(e)) => d == e,
        _ => false,
    }
}
