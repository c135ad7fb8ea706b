ghost use Rattle.std.specs.Prelude.{◌≡◌, ◌++◌, length, take, drop, min, IsOkAnd, true};
ghost use Rattle.vt_io.specs.Stream.{IsRead, faultless};

use crate::cursor::Cursor;
use crate::{Failed, Source};
use std::marker::Model;
use vt_base::Bytes;

/// A source in memory that never fails.
#[derive(Drop)]
pub struct NoFaultSource {
    left: Cursor,
}

impl Model for NoFaultSource {
    ghost use Rattle.std.specs.Prelude.{ℕ, List};

    ghost Value = { List ℕ };

    ghost view = { λ s. s.left };
}

impl NoFaultSource {
    /// A source of `bytes`.
    pub fn new(bytes: Bytes) -> NoFaultSource
        ensures { result ≡ bytes.bytes }
    {
        NoFaultSource {
            left: Cursor::new(bytes),
        }
    }
}

impl Source for NoFaultSource {
    ghost stream = { faultless };

    ghost steady = { true };

    fn read(&mut self, buf: &mut [u8]) -> Result<usize, Failed>
        ensures read { IsRead true (faultless self.old) (faultless self.new) buf.old buf.new result }
        ensures exact { IsOkAnd result (λ n. (n ≡ min (length buf.old) (length self.old))
            × (buf.new ≡ take n self.old ++ drop n buf.old)
            × (self.new ≡ drop n self.old)) }
    {
        Ok(self.left.read(buf))
    }
}
