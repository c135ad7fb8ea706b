//! Numbers that C passes.
ghost use Rattle.std.specs.Prelude.{◌≡◌, ◌<◌, ◌≤◌, false, true, IfSome, IfNone};
ghost use Rattle.vt_world.specs.Spare.{is_console};

use vt_base::{CallerNo, ConsoleNo};

/// The caller of this number, if there is one.
pub(crate) fn caller_of(n: u32) -> Option<CallerNo>
    ensures some { IfSome result (λ caller. (caller ≡ n) × (n < 68)) }
    ensures none { IfNone result (68 ≤ n) }
{
    if n > 67 {
        return None;
    }
    Some(CallerNo::numbered(n as u16))
}

/// The console of this number, if there is one.
pub(crate) fn console_of(n: u32) -> Option<ConsoleNo>
    ensures some { IfSome result (λ console. (console ≡ n) × (is_console n ≡ true)) }
    ensures none { IfNone result (is_console n ≡ false) }
{
    if n < 1 || n > 63 {
        return None;
    }
    Some(ConsoleNo::numbered(n as u16))
}
