ghost use Rattle.std.specs.Prelude.{◌≡◌};
ghost use Rattle.vt_io.specs.Memory.{Writes, sink_stream};
ghost use Rattle.vt_io.specs.Stream.{IsWrite};

use crate::cursor::Cursor;
use crate::{Failed, Sink};
use std::marker::Model;
use vt_base::Bytes;

/// A sink in memory: it keeps the bytes that fit its room. A call fails if it is among the calls
/// that were named at the start, or if there is no room for any byte of a piece.
#[derive(Drop)]
pub struct MemSink {
    bytes: Bytes,
    fails: Cursor,
    faults: u64,
}

impl Model for MemSink {
    ghost use Rattle.vt_io.specs.Memory.{SinkState};

    ghost Value = { SinkState };

    ghost view = { λ s. record {
      held = s.bytes.bytes;
      room = s.bytes.room;
      fails = s.fails;
      faults = s.faults;
    } };
}

impl MemSink {
    /// A sink that begins with the bytes of `room` and keeps as many more as it has room for. Call k,
    /// counted from 0, fails if `fails` has a byte k that isn't 0.
    pub fn new(room: Bytes, fails: Bytes) -> MemSink
        ensures held { result.held ≡ room.bytes }
        ensures room { result.room ≡ room.room }
        ensures fails { result.fails ≡ fails.bytes }
        ensures faults { result.faults ≡ 0 }
    {
        MemSink {
            bytes: room,
            fails: Cursor::new(fails),
            faults: 0,
        }
    }

    /// The bytes that the sink holds, in order.
    pub fn held(&self) -> &[u8]
        ensures { result.now ≡ self.now.held }
    {
        self.bytes.as_slice()
    }
}

impl Sink for MemSink {
    ghost stream = { sink_stream };

    fn write(&mut self, buf: &[u8]) -> Result<usize, Failed>
        ensures write { IsWrite (sink_stream self.old) (sink_stream self.new) buf.now result }
        ensures exact { Writes self.old self.new buf.now result }
    {
        if self.fails.take_flag() {
            self.faults = self.faults.saturating_add(1);
            return Err(Failed);
        }
        let count = buf.len().min(self.bytes.room());
        if count == 0 && !buf.is_empty() {
            self.faults = self.faults.saturating_add(1);
            return Err(Failed);
        }
        self.bytes.append(&buf[..count]);
        Ok(count)
    }
}
