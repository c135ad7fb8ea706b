ghost use Rattle.vt_io.specs.Stream.{IsWrite, Stream};

use crate::Failed;

/// The trait of a sink: a write takes a part of its bytes, or fails and counts a fault.
pub trait Sink {
    // The bytes that are held, if they are known, and the count of faults.
    ghost stream: { Self → Stream };

    /// Takes bytes from the beginning of `buf` and returns their number, which is at least 1 if `buf`
    /// isn't empty. A write that fails takes none.
    fn write(&mut self, buf: &[u8]) -> Result<usize, Failed>
        ensures { IsWrite (stream self.old) (stream self.new) buf.now result };
}
