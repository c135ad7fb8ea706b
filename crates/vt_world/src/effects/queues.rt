//! Bytes that enter the queues of consoles.
ghost use Rattle.std.specs.Prelude.{◌≡◌};
ghost use Rattle.vt_world.specs.Deeds.{Own, Puts, apply_deed};

use crate::World;
use vt_base::ConsoleNo;

impl World {
    /// Puts a piece into the console's queue, all or none. If bytes enter, the waits for them end.
    pub(crate) fn put(&mut self, c: ConsoleNo, piece: &[u8])
        ensures { self.new ≡ apply_deed self.old (Own (Puts c piece.now)) }
    {
        if self.inputs.put(c, piece) {
            self.procs.filled(c);
        }
    }
}
