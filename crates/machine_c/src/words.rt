//! The words of a call, as C passes them.
ghost use Rattle.std.specs.Prelude.{◌≡◌, IfNone, IfSome};
ghost use Rattle.machine_c.specs.Calls.{IsCall, may_hold};
ghost use Rattle.vt_events.specs.declared.kind.Kind.{Kind};

use crate::numbers::caller_of;
use vt_base::CallerNo;
use vt_events::Kind;

/// A caller, and the kind of its call.
#[derive(Clone, Copy)]
pub(crate) struct FoundCall {
    pub caller: CallerNo,
    pub kind: Kind,
}

/// The caller of this number and the kind of its call, if there is such a caller, and there are calls of this name with
/// so many numbers and bytes.
pub(crate) fn find_call(caller: u32, name: &[u8], numbers: &[u16], held: &[u8]) -> Option<FoundCall>
    ensures some { IfSome result (λ found. (found.caller ≡ caller)
        × IsCall caller name.now numbers.now held.now found.kind) }
    ensures none { IfNone result ((kind : Kind) → ¬ IsCall caller name.now numbers.now held.now kind) }
{
    let caller = caller_of(caller)?;
    let kind = Kind::named(name)?;
    if numbers.len() != kind.count() || !may_hold(kind, held.len()) {
        return None;
    }
    Some(FoundCall { caller, kind })
}

// Whether a call of this kind may hold that many bytes: a kind without bytes holds none.
fn may_hold(kind: Kind, count: usize) -> bool
    ensures { result ≡ may_hold kind count }
{
    kind.takes(count) && (kind.holds_bytes() || count == 0)
}
