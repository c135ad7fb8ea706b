//! The number of calls of each caller at the start: none.
ghost use Rattle.std.specs.Prelude.{◌≡◌, replicate};

use vt_base::CALLERS;

/// No caller has made a call.
pub(crate) fn no_calls() -> [u32; CALLERS]
    ensures { result ≡ replicate 68 0 }
{
    [0; CALLERS]
}
