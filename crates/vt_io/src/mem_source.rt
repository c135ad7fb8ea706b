ghost use Rattle.std.specs.Prelude.{◌≡◌, true};
ghost use Rattle.vt_io.specs.Memory.{Reads, source_stream};
ghost use Rattle.vt_io.specs.Stream.{IsRead};

use crate::cursor::Cursor;
use crate::{Failed, Source};
use std::marker::Model;
use vt_base::Bytes;

/// A source in memory: its bytes are read in order, and the calls that were named at the start fail.
#[derive(Drop)]
pub struct MemSource {
    left: Cursor,
    fails: Cursor,
    faults: u64,
}

impl Model for MemSource {
    ghost use Rattle.vt_io.specs.Memory.{SourceState};

    ghost Value = { SourceState };

    ghost view = { λ s. record { left = s.left; fails = s.fails; faults = s.faults } };
}

impl MemSource {
    /// A source of `bytes`. Call k, counted from 0, fails exactly if `fails` has a byte k that isn't 0.
    pub fn new(bytes: Bytes, fails: Bytes) -> MemSource
        ensures left { result.left ≡ bytes.bytes }
        ensures fails { result.fails ≡ fails.bytes }
        ensures faults { result.faults ≡ 0 }
    {
        MemSource {
            left: Cursor::new(bytes),
            fails: Cursor::new(fails),
            faults: 0,
        }
    }
}

impl Source for MemSource {
    ghost stream = { source_stream };

    ghost steady = { true };

    fn read(&mut self, buf: &mut [u8]) -> Result<usize, Failed>
        ensures read { IsRead true (source_stream self.old) (source_stream self.new) buf.old buf.new result }
        ensures exact { Reads self.old self.new buf.old buf.new result }
    {
        if self.fails.take_flag() {
            self.faults = self.faults.saturating_add(1);
            return Err(Failed);
        }
        Ok(self.left.read(buf))
    }
}
