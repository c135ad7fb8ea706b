ghost use Rattle.std.specs.Prelude.{Bool};
ghost use Rattle.vt_io.specs.Stream.{IsRead, Stream};

use crate::Failed;

/// The trait of a source: a read gives the next bytes, 0 of them at the end, or fails and counts a fault.
pub trait Source {
    // The bytes that are left, if they are known, and the count of faults.
    ghost stream: { Self → Stream };

    // Whether a read that doesn't fail leaves the count of faults unchanged. A source that reads ahead can count a
    // fault before the call that fails, so it states false.
    ghost steady: { Bool };

    /// Moves the next bytes to the beginning of `buf` and returns their number. 0 is the end of the
    /// input if `buf` isn't empty. A read that fails takes none of the bytes that are left. If the source is
    /// steady, a read that doesn't fail leaves the count of faults unchanged.
    fn read(&mut self, buf: &mut [u8]) -> Result<usize, Failed>
        ensures { IsRead steady (stream self.old) (stream self.new) buf.old buf.new result };
}
