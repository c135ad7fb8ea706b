//! The meaning of answers for a program.
ghost use Rattle.std.specs.Prelude.{◌≡◌};
ghost use Rattle.session_text.specs.Programs.{ends, is_gone, signals_in};

use vt_base::{Errno, SigSet};
use vt_events::{Event, Reply};

/// Whether the call with this answer ends its program.
pub(crate) fn ends(e: &Event, r: &Reply) -> bool
    ensures { result ≡ ends e.now r.now }
{
    match e {
        Event::Exit => true,
        Event::Kill(..) => false,
        _ => is_gone(r),
    }
}

/// Whether the caller wasn't alive.
pub(crate) fn is_gone(r: &Reply) -> bool
    ensures { result ≡ is_gone r.now }
{
    matches!(r, Reply::Err(Errno::Srch))
}

/// The signals that the answer gives.
pub(crate) fn signals_in(r: &Reply) -> SigSet
    ensures { result ≡ signals_in r.now }
{
    match r {
        Reply::Sigs(set) => *set,
        _ => SigSet::empty(),
    }
}
