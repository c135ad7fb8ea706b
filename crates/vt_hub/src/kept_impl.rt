//! The value under the lock, as the lock sees it.
use crate::opening::Opening;
use crate::shared::Shared;
use turn_lock::Kept;
use vt_events::Entry;
use vt_journal::Full;

impl<J: Opening> Kept for Shared<J> {
    ghost use Rattle.std.proofs.Common.{arith};
    ghost use Rattle.vt_hub.specs.Carrying.{IsCarried, display_of, carried_entries};

    type What = Entry;

    type Stop = Full;

    ghost before = { display_of J.start };

    ghost right = { IsCarried J.start };

    ghost entries = { λ s. carried_entries J.start s.log.entries };

    ghost seal = { λ s. s.stop };

    fn front(&self) -> u64 {
        self.sound();
        self.word()
    }

    ghost display = { Prim.omega arith };
}
