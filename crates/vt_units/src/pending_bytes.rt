ghost use Rattle.std.specs.Prelude.{◌≡◌, ◌<◌, ◌≤◌, [], ◌∷◌, ◌++◌, length, take};

use std::marker::Model;

/// The most bytes of a sequence that isn't a string. This project's own.
pub(crate) const SEQUENCE_BYTES: usize = 256;

/// The first bytes of a text, as many as such a sequence has at most.
#[inline(always)]
pub(crate) fn sequence_front(b: &[u8]) -> &[u8]
    ensures { result.now ≡ take 256 b.now }
{
    &b[..b.len().min(SEQUENCE_BYTES)]
}

/// The pending bytes.
#[derive(Debug, Drop)]
pub(crate) struct PendingBytes {
    bytes: [u8; SEQUENCE_BYTES],
    len: usize,
}

impl Model for PendingBytes {
    ghost use Rattle.std.specs.Prelude.{◌≤◌, ℕ, List, take};

    ghost Value = { List ℕ };

    ghost view = { λ k. take k.len k.bytes };

    ghost invariant = { λ k. k.len ≤ 256 };
}

impl PendingBytes {
    pub(crate) fn new() -> PendingBytes
        ensures { result ≡ [] }
    {
        PendingBytes {
            bytes: [0; SEQUENCE_BYTES],
            len: 0,
        }
    }

    pub(crate) fn push(&mut self, b: u8)
        requires { length self.old < 256 }
        ensures { self.new ≡ self.old ++ b ∷ [] }
    {
        self.bytes[self.len] = b;
        self.len += 1;
    }

    pub(crate) fn clear(&mut self)
        ensures { self.new ≡ [] }
    {
        self.len = 0;
    }

    pub(crate) fn copy_from(&mut self, other: &PendingBytes)
        ensures { self.new ≡ other.now }
    {
        self.bytes = other.bytes;
        self.len = other.len;
    }

    pub(crate) fn as_slice(&self) -> &[u8]
        ensures bytes { result.now ≡ self.now }
        ensures bound { length self.now ≤ 256 }
    {
        &self.bytes[..self.len]
    }
}
