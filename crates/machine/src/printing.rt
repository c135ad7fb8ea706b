//! The text of the journal.
ghost use Rattle.std.specs.Prelude.{◌≡◌};
ghost use Rattle.machine.specs.History.{world_of};
ghost use Rattle.machine.specs.MachineState.{text_of};
ghost use Rattle.vt_base.specs.Bytes.{Adds};
ghost use Rattle.vt_world.specs.History.{IsLegal};

use crate::machine::Machine;
use std::alloc::Global;
use vt_base::{Bytes, NoMemory};
use vt_journal::{Tail, print};

impl Machine {
    /// Adds the text of the journal in version 2. If no entry is gone, it is a legal history of the machine
    /// from its start.
    pub fn journal(&self, alloc: Global, text: &mut Bytes) -> Result<(), NoMemory>
        ensures legal { self.now.gone ≡ 0 → IsLegal (world_of self.now.start) self.now.log.entries }
        ensures text { Adds (text_of self.now) text.old text.new result }
    {
        let entries = self.log.entries();
        let end = Tail::End {
            events: entries.len() as u32,
            bytes: self.log.bytes(),
        };
        print(alloc, entries, 2, &end, text)
    }
}
