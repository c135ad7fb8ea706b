//! The console that a key or a text requests.
ghost use Rattle.std.specs.Prelude.{◌≡◌, ◌+◌, ◌≤◌, Some, None, find, if◌then◌else◌};
ghost use Rattle.std.specs.List.{range_with_len};
ghost use Rattle.vt_switch.specs.Display.{is_allocated};
ghost use Rattle.vt_world.specs.Wanted.{downwards, numbers_down_from, upwards, wanted_in};

use crate::World;
use crate::wanted::Wanted;
use vt_base::ConsoleNo;

impl World {
    /// The wanted console, if there is one.
    pub(crate) fn wanted(&self, wanted: Wanted) -> Option<ConsoleNo>
        ensures { result ≡ wanted_in self.now.display wanted }
    {
        match wanted {
            Wanted::Number(n) => ConsoleNo::new(n),
            Wanted::Last => Some(self.switch.last()),
            Wanted::Above => self.above(),
            Wanted::Below => self.below(),
        }
    }

    // The nearest allocated console above the one in front; 1 follows 63.
    fn above(&self) -> Option<ConsoleNo>
        ensures { result ≡ find (is_allocated self.now.display) (upwards self.now.display.front) }
    {
        let front = self.switch.front().get();
        match self.lowest(front + 1, 63 - front) {
            Some(c) => Some(c),
            None => self.lowest(1, front),
        }
    }

    // The nearest allocated console below the one in front; 63 follows 1.
    fn below(&self) -> Option<ConsoleNo>
        ensures { result ≡ find (is_allocated self.now.display) (downwards self.now.display.front) }
    {
        let front = self.switch.front().get();
        match self.highest(front - 1, front - 1) {
            Some(c) => Some(c),
            None => self.highest(63, 64 - front),
        }
    }

    // The lowest allocated console of `len` consoles from `low` on.
    fn lowest(&self, low: u16, len: u16) -> Option<ConsoleNo>
        requires low { 1 ≤ low }
        requires high { low + len ≤ 64 }
        ensures { result ≡ find (is_allocated self.now.display) (range_with_len low len) }
    {
        for k in 0..len {
            let c = self.if_allocated(ConsoleNo::numbered(low + k));
            if c.is_some() {
                return c;
            }
        }
        None
    }

    // The highest allocated console of `len` consoles from `high` down.
    fn highest(&self, high: u16, len: u16) -> Option<ConsoleNo>
        requires low { len ≤ high }
        requires high { high ≤ 63 }
        ensures { result ≡ find (is_allocated self.now.display) (numbers_down_from high len) }
    {
        for k in 0..len {
            let c = self.if_allocated(ConsoleNo::numbered(high - k));
            if c.is_some() {
                return c;
            }
        }
        None
    }

    // The console, if it is allocated.
    fn if_allocated(&self, c: ConsoleNo) -> Option<ConsoleNo>
        ensures { result ≡ (if is_allocated self.now.display c then Some c else None) }
    {
        if self.switch.allocated(c) {
            Some(c)
        } else {
            None
        }
    }
}
