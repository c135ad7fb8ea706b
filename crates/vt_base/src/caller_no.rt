ghost use Rattle.std.specs.List.{range_with_len};
ghost use Rattle.std.specs.Prelude.{◌≡◌, ◌<◌, ◌≤◌, IfSome, Some, map};
ghost use Rattle.vt_base.specs.Keyboards.{is_keyboard, keyboard_caller, keyboard_of};
ghost use Rattle.vt_base.specs.Limits.{callers, greatest_caller, keyboards, processes};
ghost use Rattle.vt_base.specs.Range.{in_range};

use crate::{CALLERS, KEYBOARDS, PROCESSES};
use std::marker::Model;

/// The number of a caller, from 0 to 67: 0 is the first keyboard, 1 to 64 are processes, and 65 to 67
/// are the further keyboards.
#[derive(Clone, Copy, Debug, PartialEq, Eq)]
pub struct CallerNo {
    n: u8,
}

impl Model for CallerNo {
    ghost use Rattle.std.specs.Prelude.{ℕ, ◌≤◌};

    ghost Value = { ℕ };

    ghost view = { λ c. c.n };

    ghost invariant = { λ c. c.n ≤ 67 };

    ghost inverse = { λ n. record { n = n } };
}

impl CallerNo {
    /// The first keyboard.
    pub const KEYBOARD: CallerNo = CallerNo { n: 0 };

    /// The caller of this number, if there is one.
    pub fn new(n: u16) -> Option<CallerNo>
        ensures { result ≡ in_range 0 greatest_caller n }
    {
        if CALLERS <= usize::from(n) {
            return None;
        }
        Some(CallerNo { n: n as u8 })
    }

    /// The caller of a number that is known to be in the range.
    pub fn numbered(n: u16) -> CallerNo
        requires { n ≤ 67 }
        ensures { result ≡ n }
    {
        CallerNo { n: n as u8 }
    }

    /// Does nothing. It is called for its clause: the number is in its range.
    pub fn stays_in_range(self)
        ensures { self ≤ 67 }
    {}

    /// The number.
    pub fn get(self) -> u16
        ensures same { result ≡ self }
        ensures high { result ≤ 67 }
    {
        u16::from(self.n)
    }

    pub fn is_keyboard(self) -> bool
        ensures { result ≡ is_keyboard self }
    {
        self.n == 0 || PROCESSES < usize::from(self.n)
    }

    /// The keyboard k, which journals name `kK`.
    pub fn keyboard(k: u8) -> CallerNo
        requires { k < keyboards }
        ensures caller { result ≡ keyboard_caller k }
        ensures back { keyboard_of result ≡ Some k }
    {
        CallerNo {
            n: if k == 0 { 0 } else { PROCESSES as u8 + k },
        }
    }

    /// The number of this keyboard, or None if the caller is a process.
    pub fn keyboard_no(self) -> Option<u8>
        ensures number { result ≡ keyboard_of self }
        ensures high { IfSome result (λ k. k < keyboards) }
        ensures back { IfSome result (λ k. keyboard_caller k ≡ self) }
    {
        if self.n == 0 {
            Some(0)
        } else if PROCESSES < usize::from(self.n) {
            Some(self.n - PROCESSES as u8)
        } else {
            None
        }
    }

    /// All callers in rising order: the first keyboard, the processes, and the other keyboards.
    pub fn all() -> [CallerNo; CALLERS]
        ensures { result ≡ range_with_len 0 callers }
    {
        let mut all = [CallerNo::KEYBOARD; CALLERS];
        for i in 0..CALLERS {
            all[i] = CallerNo { n: i as u8 };
        }
        all
    }

    /// All keyboards in rising order.
    pub fn keyboards() -> [CallerNo; KEYBOARDS]
        ensures { result ≡ map keyboard_caller (range_with_len 0 keyboards) }
    {
        [
            CallerNo { n: 0 },
            CallerNo { n: 65 },
            CallerNo { n: 66 },
            CallerNo { n: 67 },
        ]
    }

    /// All processes in rising order.
    pub fn processes() -> [CallerNo; PROCESSES]
        ensures { result ≡ range_with_len 1 processes }
    {
        let mut all = [CallerNo { n: 1 }; PROCESSES];
        for i in 0..PROCESSES {
            all[i] = CallerNo { n: i as u8 + 1 };
        }
        all
    }
}
