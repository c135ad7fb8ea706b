//! Whether two queues are the same, and the copy of one into the other.
ghost use Rattle.std.specs.Prelude.{◌≡◌, IsTrue};

use crate::InQueue;

impl InQueue {
    /// Whether both queues are the same. Nothing is proved of the answer `false`.
    pub fn same(&self, other: &InQueue) -> bool
        ensures { IsTrue result → self.now ≡ other.now }
    {
        if self.dropped != other.dropped || self.bytes.len() != other.bytes.len() {
            return false;
        }
        for i in 0..self.bytes.len() {
            if self.bytes.get(i) != other.bytes.get(i) {
                return false;
            }
        }
        true
    }

    /// Becomes the other queue. It takes no memory.
    pub fn copy_from(&mut self, other: &InQueue)
        ensures { self.new ≡ other.now }
    {
        let _len = other.bytes.len(); // it says that the bytes fit
        let (front, back) = other.bytes.as_slices();
        self.bytes.clear();
        self.bytes.extend_from_slice(front);
        self.bytes.extend_from_slice(back);
        self.dropped = other.dropped;
    }
}
