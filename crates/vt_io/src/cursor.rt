ghost use Rattle.std.specs.Prelude.{◌≡◌, ◌≢◌, ◌↔◌, ◌++◌, length, take, drop, min, slice_index, IsTrue};

use std::marker::Model;
use vt_base::Bytes;

/// Bytes that are taken in order.
#[derive(Drop)]
pub(crate) struct Cursor {
    bytes: Bytes,
    at: usize,
}

impl Model for Cursor {
    ghost use Rattle.std.specs.Prelude.{ℕ, List, ◌≤◌, length, drop};

    ghost Value = { List ℕ };

    ghost view = { λ c. drop c.at c.bytes.bytes };

    ghost invariant = { λ c. c.at ≤ length c.bytes.bytes };
}

impl Cursor {
    pub(crate) fn new(bytes: Bytes) -> Cursor
        ensures { result ≡ bytes.bytes }
    {
        Cursor { bytes, at: 0 }
    }

    /// Moves the next bytes to the beginning of `buf`, as many as it has room for, and returns their
    /// number.
    pub(crate) fn read(&mut self, buf: &mut [u8]) -> usize
        ensures count { result ≡ min (length buf.old) (length self.old) }
        ensures moved { buf.new ≡ take result self.old ++ drop result buf.old }
        ensures rest { self.new ≡ drop result self.old }
    {
        let count = copy_bytes(&self.bytes.as_slice()[self.at..], buf);
        self.at += count;
        count
    }

    /// Takes the next byte, and returns whether there is one that isn't 0.
    pub(crate) fn take_flag(&mut self) -> bool
        ensures flag { IsTrue result ↔ (slice_index self.old 0 ≢ 0) }
        ensures rest { self.new ≡ drop 1 self.old }
    {
        let mut next = [0];
        let _ = self.read(&mut next); // at the end the byte stays 0
        next[0] != 0
    }
}

// Copies the first bytes of `from` over the first bytes of `to`, as many as the shorter one has, and
// returns their number.
pub(crate) fn copy_bytes(from: &[u8], to: &mut [u8]) -> usize
    ensures count { result ≡ min (length to.old) (length from.now) }
    ensures moved { to.new ≡ take result from.now ++ drop result to.old }
{
    let count = from.len().min(to.len());
    to[..count].copy_from_slice(&from[..count]);
    count
}
