//! Calls of callers.
ghost use Rattle.std.specs.Prelude.{◌≡◌, ◌≤◌, ◌↔◌, Err, OnOk, OnErr, length};
ghost use Rattle.machine.specs.MachineState.{HasCalled, greatest_number, made_by};
ghost use Rattle.vt_events.specs.Charge.{charge_of};
ghost use Rattle.vt_journal.specs.Room.{HasRoom};

use crate::call_error::CallError;
use crate::machine::Machine;
use std::alloc::Global;
use vt_base::CallerNo;
use vt_events::{Entry, Event, charge};

impl Machine {
    /// Makes a call of the caller, and enters it in the journal with its answer, which is that of
    /// [`Machine::last`].
    pub fn call(&mut self, alloc: Global, caller: CallerNo, event: Event) -> Result<(), CallError>
        ensures called { OnOk result (HasCalled caller event self.old self.new) }
        ensures full { (result ≡ Err CallError.Full) ↔ (¬ HasRoom self.old.log (charge_of event)) }
        ensures uncounted { (result ≡ Err CallError.Uncounted)
            ↔ (HasRoom self.old.log (charge_of event) × (made_by self.old caller ≡ greatest_number)) }
        ensures left { OnErr result (self.new ≡ self.old) }
    {
        let charge = charge(&event);
        let at = usize::from(caller.get());
        let seq = self.made[at];
        if !self.log.room(charge) {
            return Err(CallError::Full);
        }
        if seq == u32::MAX {
            return Err(CallError::Uncounted);
        }
        match self.world.call(alloc, caller, &event) {
            Ok(reply) => {
                self.made[at] = seq + 1;
                let entry = Entry {
                    caller,
                    seq,
                    event,
                    reply,
                };
                self.log.push_counted(entry, charge);
                Ok(())
            }
            Err(_) => Err(CallError::NoMemory),
        }
    }
}
