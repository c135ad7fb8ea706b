ghost use Rattle.std.specs.Prelude.{◌≡◌, ◌≤◌, IfSome, MatchResult, length, true};
ghost use Rattle.vt_io.specs.Faults.{one_more};
ghost use Rattle.vt_io.specs.Stream.{IsRead, unknown_stream};

use crate::cursor::copy_bytes;
use crate::retries::RETRIES;
use crate::{Failed, Source};
use std::io::{ErrorKind, Read};
use std::marker::Model;

/// The most bytes that one read returns.
const PIECE_BYTES: usize = 4_096;

/// A source over a reader of std. Its contract does not describe the bytes. An interrupted read is
/// tried again, at most [`RETRIES`] times in a call; one more interruption is a fault, as is every
/// other error. The reader fills a buffer of the source's own, since std doesn't describe what a
/// read that fails leaves in its buffer.
#[derive(Drop)]
pub struct StdSource<R> {
    reader: R,
    faults: u64,
    piece: [u8; PIECE_BYTES],
}

impl<R> Model for StdSource<R> {
    ghost use Rattle.std.specs.Prelude.{ℕ};

    // The count of faults.
    ghost Value = { ℕ };

    ghost view = { λ s. s.faults };
}

impl<R> StdSource<R> {
    /// A source over `r`, with no fault counted.
    pub fn new(r: R) -> StdSource<R>
        ensures { result ≡ 0 }
    {
        StdSource {
            reader: r,
            faults: 0,
            piece: [0; PIECE_BYTES],
        }
    }
}

impl<R: Read> Source for StdSource<R> {
    ghost stream = { unknown_stream };

    ghost steady = { true };

    fn read(&mut self, buf: &mut [u8]) -> Result<usize, Failed>
        ensures read { IsRead true (unknown_stream self.old) (unknown_stream self.new) buf.old buf.new result }
        ensures count { MatchResult result
            (λ _. self.new ≡ self.old)
            (λ _. self.new ≡ one_more self.old) }
    {
        let most = buf.len().min(PIECE_BYTES);
        let piece = &mut self.piece[..];
        match read_again(&mut self.reader, &mut piece[..most]) {
            Some(count) => Ok(copy_bytes(&piece[..count], buf)),
            None => {
                self.faults = self.faults.saturating_add(1);
                Err(Failed)
            }
        }
    }
}

// The result of a read, which is tried again if it was interrupted.
fn read_again<R: Read>(reader: &mut R, piece: &mut [u8]) -> Option<usize>
    ensures { IfSome result (λ count. count ≤ length piece.old) }
{
    for _ in 0..=RETRIES {
        match reader.read(piece) {
            Ok(count) => return Some(count),
            Err(error) if error.kind() == ErrorKind::Interrupted => {}
            Err(_) => break,
        }
    }
    None
}
