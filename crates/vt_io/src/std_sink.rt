ghost use Rattle.std.specs.Prelude.{◌≡◌, MatchResult};
ghost use Rattle.vt_io.specs.Faults.{one_more};
ghost use Rattle.vt_io.specs.Stream.{IsWrite, unknown_stream};

use crate::retries::RETRIES;
use crate::{Failed, Sink};
use std::io::{ErrorKind, Write};
use std::marker::Model;

/// A sink over a writer of std. Its contract does not describe the bytes. An interrupted write is
/// tried again like a read of a source. A write that takes no byte of a piece that isn't empty is a
/// fault.
#[derive(Drop)]
pub struct StdSink<W> {
    writer: W,
    faults: u64,
}

impl<W> Model for StdSink<W> {
    ghost use Rattle.std.specs.Prelude.{ℕ};

    // The count of faults.
    ghost Value = { ℕ };

    ghost view = { λ s. s.faults };
}

impl<W> StdSink<W> {
    /// A sink over `w`, with no fault counted.
    pub fn new(w: W) -> StdSink<W>
        ensures { result ≡ 0 }
    {
        StdSink {
            writer: w,
            faults: 0,
        }
    }
}

impl<W: Write> Sink for StdSink<W> {
    ghost stream = { unknown_stream };

    fn write(&mut self, buf: &[u8]) -> Result<usize, Failed>
        ensures write { IsWrite (unknown_stream self.old) (unknown_stream self.new) buf.now result }
        ensures count { MatchResult result
            (λ _. self.new ≡ self.old)
            (λ _. self.new ≡ one_more self.old) }
    {
        for _ in 0..=RETRIES {
            match self.writer.write(buf) {
                Ok(0) if !buf.is_empty() => break,
                Ok(count) => return Ok(count),
                Err(error) if error.kind() == ErrorKind::Interrupted => {}
                Err(_) => break,
            }
        }
        self.faults = self.faults.saturating_add(1);
        Err(Failed)
    }
}
