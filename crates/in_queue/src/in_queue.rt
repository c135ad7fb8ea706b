ghost use Rattle.std.specs.Prelude.{◌≡◌, ◌+◌, ◌<◌, ◌≤◌, ◌==◌, ◌↔◌, ◌++◌, length, take, min, slice_get, Some, IsTrue, IfOk};
ghost use Rattle.std.specs.Bool.{OnFalse, OnTrue};
ghost use Rattle.in_queue.specs.Queue.{empty, with_drop, with_piece, without_front};
ghost use Rattle.vt_base.specs.Limits.{piece_bytes};

mod same;

use circular_buffer::HeapCircularBuffer;
use std::alloc::Global;
use std::marker::Model;
use vt_base::{Bytes, NoMemory, PIECE_BYTES};

/// The input of a console that no process has read yet: at most [`PIECE_BYTES`] bytes. A piece that doesn't
/// fit is dropped whole and counted.
#[derive(Debug, Drop)]
pub struct InQueue {
    bytes: HeapCircularBuffer<u8>,
    dropped: u32,
}

impl Model for InQueue {
    ghost use Rattle.std.specs.Prelude.{◌≡◌};
    ghost use Rattle.in_queue.specs.Queue.{Queue};
    ghost use Rattle.vt_base.specs.Limits.{piece_bytes};

    ghost Value = { Queue };

    ghost view = { λ q. record { bytes = q.bytes.items; dropped = q.dropped } };

    ghost invariant = { λ q. q.bytes.capacity ≡ piece_bytes };
}

impl InQueue {
    /// An empty queue. All memory is taken here.
    pub fn new(alloc: Global) -> Result<InQueue, NoMemory>
        ensures { IfOk result (λ q. q ≡ empty) }
    {
        let bytes = HeapCircularBuffer::with_capacity(alloc, PIECE_BYTES)?;
        Ok(InQueue { bytes, dropped: 0 })
    }

    /// Adds all of `b` at the end, or drops it if it doesn't fit.
    pub fn put(&mut self, b: &[u8]) -> bool
        ensures fits { IsTrue result ↔ (length self.old.bytes + length b.now ≤ piece_bytes) }
        ensures put { OnTrue result (self.new ≡ with_piece self.old b.now) }
        ensures dropped { OnFalse result (self.new ≡ with_drop self.old) }
    {
        if PIECE_BYTES - self.bytes.len() < b.len() {
            self.dropped = self.dropped.saturating_add(1);
            return false;
        }
        self.bytes.extend_from_slice(b);
        true
    }

    /// Moves at most `max` bytes from the beginning to the end of `out`, and returns their number.
    pub fn take(&mut self, out: &mut Bytes, max: usize) -> usize
        requires { max ≤ out.old.room }
        ensures count { result ≡ min max (length self.old.bytes) }
        ensures taken { out.new.bytes ≡ out.old.bytes ++ take result self.old.bytes }
        ensures room { out.new.room + result ≡ out.old.room }
        ensures left { self.new ≡ without_front self.old result }
    {
        let len = self.bytes.len();
        let count = max.min(len);
        let (front, back) = self.bytes.as_slices();
        let from_front = count.min(front.len());
        out.append(&front[..from_front]);
        out.append(&back[..count - from_front]);
        self.bytes.truncate_front(len - count);
        count
    }

    /// The number of bytes.
    pub fn len(&self) -> usize
        ensures count { result ≡ length self.now.bytes }
        ensures within { result ≤ piece_bytes }
    {
        self.bytes.len()
    }

    /// Whether there are none.
    pub fn is_empty(&self) -> bool
        ensures { result ≡ (length self.now.bytes == 0) }
    {
        self.bytes.is_empty()
    }

    /// Byte `i`, counted from 0.
    pub fn at(&self, i: usize) -> u8
        requires { i < length self.now.bytes }
        ensures { slice_get self.now.bytes i ≡ Some result }
    {
        self.bytes.get(i).copied().unwrap()
    }

    /// The number of pieces that were dropped, at most 4,294,967,295.
    pub fn dropped(&self) -> u32
        ensures { result ≡ self.now.dropped }
    {
        self.dropped
    }

    /// Removes all bytes and sets the count of drops to 0.
    pub fn clear(&mut self)
        ensures { self.new ≡ empty }
    {
        self.bytes.clear();
        self.dropped = 0;
    }
}
