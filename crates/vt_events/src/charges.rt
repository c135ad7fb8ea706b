ghost use Rattle.std.specs.Prelude.{◌≡◌, ◌≤◌, length};
ghost use Rattle.vt_events.specs.Charge.{charge_of, greatest_dump, greatest_reply, text_of_event};

use crate::{Event, Parts};

/// The part of the charge that every entry of a journal has. This project's own.
const ENTRY_BYTES: usize = 64;

/// The charge of the call in a journal, in bytes: 64, plus the bytes of the call, plus the most
/// bytes that its answer can have; at most the greatest u32. This project's own.
pub fn charge(e: &Event) -> u32
    ensures { result ≡ charge_of e.now }
{
    let sum = held_bytes(e).saturating_add(ENTRY_BYTES + reply_bytes(e));
    u32::try_from(sum).unwrap_or(u32::MAX)
}

// How many bytes the call holds; none if it is a scan.
fn held_bytes(e: &Event) -> usize
    ensures { result ≡ length (text_of_event e.now) }
{
    match e {
        Event::Scan(_) => 0,
        _ => match Parts::of(e).held() {
            Some(bytes) => bytes.len(),
            None => 0,
        },
    }
}

/// The most bytes that the answer to the call can have.
pub fn reply_bytes(e: &Event) -> usize
    ensures same { result ≡ greatest_reply e.now }
    ensures most { result ≤ 260_100 }
{
    match e {
        Event::ReadIn(_, most) => usize::from(*most).min(4_096),
        Event::GetFunc(..) => 255,
        Event::GetDia(_) => 3_072,
        Event::GetMap(_) => 512,
        Event::GetPal(_) => 48,
        Event::Dump(kind, _) => dump_bytes(*kind),
        _ => 0,
    }
}

// The most bytes of a dump of the kind: each screen has at most 255 rows and columns.
fn dump_bytes(kind: u16) -> usize
    ensures same { result ≡ greatest_dump kind }
    ensures most { result ≤ 260_100 }
{
    match kind {
        0 => 65_025,
        1 => 130_054,
        2 => 260_100,
        _ => 0,
    }
}
