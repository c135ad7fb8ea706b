ghost use Rattle.std.specs.Prelude.{◌≡◌, ◌+◌, ◌<◌, ◌≤◌, [], ◌∷◌, ◌++◌, length, max, take, IfOk, OnOk, OnErr};

use crate::NoMemory;
use std::alloc::Global;
use std::marker::Model;

/// A list of bytes with spare room: appending within the room takes no memory.
#[derive(Debug, Drop)]
pub struct Bytes {
    items: Vec<u8>,
    room: usize,
}

impl Model for Bytes {
    ghost use Rattle.std.specs.Prelude.{◌+◌, ◌≤◌, vec_len, vec_capacity};
    ghost use Rattle.vt_base.specs.Bytes.{Text};

    ghost Value = { Text };

    ghost view = { λ b. record { bytes = b.items.items; room = b.room } };

    ghost invariant = { λ b. vec_len b.items + b.room ≤ vec_capacity b.items };
}

impl Bytes {
    /// A copy of the bytes of `b`, with no room.
    pub fn from_slice(alloc: Global, b: &[u8]) -> Result<Bytes, NoMemory>
        ensures bytes { IfOk result (λ text. text.bytes ≡ b.now) }
        ensures room { IfOk result (λ text. text.room ≡ 0) }
    {
        let items = Vec::from_slice(alloc, b)?;
        Ok(Bytes { items, room: 0 })
    }

    /// No bytes, and room for `n`.
    pub fn with_room(alloc: Global, n: usize) -> Result<Bytes, NoMemory>
        ensures bytes { IfOk result (λ text. text.bytes ≡ []) }
        ensures room { IfOk result (λ text. text.room ≡ n) }
    {
        let items = Vec::with_capacity(alloc, n)?;
        Ok(Bytes { items, room: n })
    }

    /// No bytes and no room. This call takes no memory.
    pub fn new(alloc: Global) -> Bytes
        ensures bytes { result.bytes ≡ [] }
        ensures room { result.room ≡ 0 }
    {
        let items = Vec::new(alloc);
        Bytes { items, room: 0 }
    }

    /// The bytes in order.
    pub fn as_slice(&self) -> &[u8]
        ensures { result.now ≡ self.now.bytes }
    {
        self.items.as_slice()
    }

    /// How many more bytes fit.
    pub fn room(&self) -> usize
        ensures { result ≡ self.now.room }
    {
        self.room
    }

    /// Adds the bytes of `b` at the end. They must fit the room.
    pub fn append(&mut self, b: &[u8])
        requires { length b.now ≤ self.old.room }
        ensures bytes { self.new.bytes ≡ self.old.bytes ++ b.now }
        ensures room { self.new.room + length b.now ≡ self.old.room }
    {
        let added = self.items.extend_from_slice(b);
        prove!(added.is_ok());
        let _ = added; // only the proof reads it
        self.room -= b.len();
    }

    /// Adds a byte at the end. There must be room for it.
    pub fn push(&mut self, b: u8)
        requires { 0 < self.old.room }
        ensures bytes { self.new.bytes ≡ self.old.bytes ++ b ∷ [] }
        ensures room { self.new.room + 1 ≡ self.old.room }
    {
        let added = self.items.push(b);
        prove!(added.is_ok());
        let _ = added; // only the proof reads it
        self.room -= 1;
    }

    /// Removes all bytes after the first `n`. The room grows by their number.
    pub fn truncate(&mut self, n: usize)
        ensures bytes { self.new.bytes ≡ take n self.old.bytes }
        ensures room { self.new.room + length self.new.bytes ≡ self.old.room + length self.old.bytes }
    {
        if n < self.items.len() {
            self.room += self.items.len() - n;
            self.items.truncate(n);
        }
    }

    /// Makes room for at least `n` more bytes. If they fit already, it takes no memory.
    pub fn grow(&mut self, alloc: Global, n: usize) -> Result<(), NoMemory>
        ensures bytes { self.new.bytes ≡ self.old.bytes }
        ensures ok { OnOk result (self.new.room ≡ max self.old.room n) }
        ensures err { OnErr result ((self.old.room < n) × (self.new ≡ self.old)) }
    {
        let _ = alloc; // the bytes have theirs
        if n <= self.room {
            return Ok(());
        }
        self.items.reserve(n)?;
        self.room = n;
        Ok(())
    }
}
