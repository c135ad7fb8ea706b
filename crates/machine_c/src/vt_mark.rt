ghost use Rattle.std.specs.Prelude.{◌≡◌, ◌≤◌};
ghost use Rattle.machine_c.specs.Shown.{c_cause, c_mark, make_mark};

use vt_switch::{Cause, Mark};

/// What is added to a process that died.
const DIED: u8 = 128;

/// `struct vt_mark`: one thing that a call did to the display or to a caller.
#[repr(C)]
#[derive(Clone, Copy, Debug, PartialEq)]
pub(crate) struct VtMark {
    /// 1 somebody asked for console `a`, 2 signal `b` was raised to caller `a`, 3 the display went from console `a` to
    /// console `b`, 4 caller `a` ended.
    pub kind: u8,
    pub a: u8,
    pub b: u8,
    /// Of a switch: 0 if nobody had to let the display go, the process that let it go, or 128 more if it died.
    pub cause: u8,
    /// 0.
    pub spare: [u8; 4],
}

impl VtMark {
    pub(crate) fn of(mark: Mark) -> VtMark
        ensures { result ≡ c_mark mark }
    {
        match mark {
            Mark::Asked(c) => make_mark(1, c.get(), 0, 0),
            Mark::Raised { to, signal } => make_mark(2, to.get(), signal.get(), 0),
            Mark::Hopped(hop) => make_mark(3, hop.from.get(), hop.to.get(), cause_of(hop.cause)),
            Mark::Ended(p) => make_mark(4, p.get(), 0, 0),
        }
    }
}

fn make_mark(kind: u8, a: u16, b: u16, cause: u8) -> VtMark
    requires first { a ≤ 67 }
    requires second { b ≤ 64 }
    ensures { result ≡ make_mark kind a b cause }
{
    VtMark {
        kind,
        a: a as u8,
        b: b as u8,
        cause,
        spare: [0; 4],
    }
}

fn cause_of(cause: Cause) -> u8
    ensures { result ≡ c_cause cause }
{
    match cause {
        Cause::Free => 0,
        Cause::Released(p) => p.get() as u8,
        Cause::Died(p) => DIED + p.get() as u8,
    }
}
