//! A machine that follows a history, entry by entry.
ghost use Rattle.std.specs.Prelude.{◌≡◌, ◌++◌, IfOk, OnOk, if◌then◌else◌};
ghost use Rattle.watch.specs.Facts.{facts_text};
ghost use Rattle.watch.specs.Sights.{is_same, since_after, sight_of, world_after};
ghost use Rattle.watch.specs.Texts.{sight_text};

use crate::entries::{add_lines, add_object};
use crate::facts::{add_waits, trace_text, waits_of};
use crate::form::Form;
use crate::states::state_text;
use std::alloc::Global;
use vt_base::{Bytes, ConsoleNo, NoMemory};
use vt_events::Entry;
use vt_explain::HopWhy;
use vt_world::World;

/// The machine after the entries so far, and the entry since which the pending console has been the same.
#[derive(Drop)]
pub(crate) struct Following {
    pub world: World,
    pub since: u32,
}

impl Following {
    /// Follows the entry at this place, and adds its text.
    pub(crate) fn follow(
        &mut self,
        alloc: Global,
        form: Form,
        cert: &[HopWhy],
        place: u32,
        entry: &Entry,
        text: &mut Bytes,
    ) -> Result<(), NoMemory>
        ensures world { OnOk result (self.new.world ≡ world_after self.old.world entry.now) }
        ensures since { OnOk result
            (self.new.since ≡ since_after place self.old.since self.old.world self.new.world) }
        ensures text { OnOk result (text.new.bytes ≡ text.old.bytes
            ++ sight_text form cert.now (sight_of place self.old.since self.old.world entry.now)) }
    {
        let before = state_text(alloc, form, &self.world, self.since)?;
        let facts = self.call(alloc, form, cert, place, entry)?;
        let after = state_text(alloc, form, &self.world, self.since)?;
        match form {
            Form::Lines => add_lines(
                alloc,
                text,
                entry,
                facts.as_slice(),
                before.as_slice(),
                after.as_slice(),
            ),
            Form::Json => add_object(
                alloc,
                text,
                place,
                entry,
                facts.as_slice(),
                after.as_slice(),
            ),
        }
    }

    // Makes the call of the entry at this place, and returns the text of its facts.
    fn call(
        &mut self,
        alloc: Global,
        form: Form,
        cert: &[HopWhy],
        place: u32,
        entry: &Entry,
    ) -> Result<Bytes, NoMemory>
        ensures world { IfOk result (λ facts. self.new.world ≡ world_after self.old.world entry.now) }
        ensures since { IfOk result (λ facts.
            self.new.since ≡ since_after place self.old.since self.old.world self.new.world) }
        ensures facts { IfOk result (λ facts. facts.bytes
            ≡ facts_text form cert.now (sight_of place self.old.since self.old.world entry.now)) }
    {
        let waits = waits_of(alloc, &self.world)?;
        let switches = self.world.hops();
        let pending = self.world.pending_console();
        let _reply = self.world.call(alloc, entry.caller, &entry.event)?;
        self.since = since_after(place, self.since, pending, self.world.pending_console());
        let mut facts = trace_text(
            alloc,
            form,
            entry.caller,
            cert,
            switches,
            self.world.trace(),
        )?;
        add_waits(alloc, &mut facts, form, waits.as_slice(), &self.world)?;
        Ok(facts)
    }
}

// The entry since which the pending console has been the same, after the entry at this place.
fn since_after(place: u32, since: u32, before: Option<ConsoleNo>, after: Option<ConsoleNo>) -> u32
    ensures { result ≡ (if is_same before after then since else place) }
{
    if is_same(before, after) { since } else { place }
}

fn is_same(before: Option<ConsoleNo>, after: Option<ConsoleNo>) -> bool
    ensures { result ≡ is_same before after }
{
    match (before, after) {
        (None, None) => true,
        (Some(m), Some(n)) => m == n,
        _ => false,
    }
}
