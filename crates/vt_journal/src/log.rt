ghost use Rattle.std.specs.Prelude.{◌≡◌, ◌<◌, ◌≤◌, [], ◌∷◌, ◌++◌, length, IsTrue, ◌↔◌, IfOk};
ghost use Rattle.vt_events.specs.Charge.{charge_of};
ghost use Rattle.vt_journal.specs.Log.{charge_of_all};
ghost use Rattle.vt_journal.specs.Room.{HasRoom, stop_at};

use crate::{Full, Limits};
use std::alloc::Global;
use std::marker::Model;
use vt_base::NoMemory;
use vt_events::{Entry, charge};

/// The entries of a journal. The room for all entries within the limits is reserved when it is made.
#[derive(Debug, Drop)]
pub struct Log {
    entries: Vec<Entry>,
    limits: Limits,
    bytes: u64,
}

impl Model for Log {
    ghost use Rattle.std.specs.Prelude.{vec_capacity};
    ghost use Rattle.vt_journal.specs.Log.{IsLog, Logged};

    ghost Value = { Logged };

    ghost view = { λ log. record { entries = log.entries.items; limits = log.limits } };

    ghost invariant = { λ log.
        IsLog (record { entries = log.entries.items; limits = log.limits })
        (vec_capacity log.entries) log.bytes };
}

impl Log {
    /// No entries, and room for all entries within the limits.
    pub fn with_room(alloc: Global, events: u32, bytes: u64) -> Result<Log, NoMemory>
        requires events { events ≤ 1_000_000 }
        requires bytes { bytes ≤ 1_073_741_824 }
        ensures entries { IfOk result (λ log. log.entries ≡ []) }
        ensures limits { IfOk result
            (λ log. log.limits ≡ record { events = events; bytes = bytes }) }
    {
        let entries = Vec::with_capacity(alloc, events as usize)?;
        let limits = Limits { events, bytes };
        Ok(Log {
            entries,
            limits,
            bytes: 0,
        })
    }

    /// Whether one more entry with this charge is within the limits.
    pub fn room(&self, charge: u32) -> bool
        ensures { IsTrue result ↔ HasRoom self.now charge }
    {
        self.entries.len() < self.limits.events as usize
            && self.bytes + u64::from(charge) <= self.limits.bytes
    }

    /// The numbers of a full journal, if one more entry with this charge isn't within the limits.
    pub fn stop(&self, charge: u32) -> Option<Full>
        ensures { result ≡ stop_at self.now charge }
    {
        if self.room(charge) {
            return None;
        }
        Some(Full {
            events: self.entries.len() as u32,
            bytes: self.bytes,
            charge,
        })
    }

    /// Adds an entry. There must be room for it.
    pub fn push(&mut self, e: Entry)
        requires { HasRoom self.old (charge_of e.event) }
        ensures { self.new ≡ record self.old { entries = self.old.entries ++ e ∷ [] } }
    {
        let charge = charge(&e.event);
        self.push_counted(e, charge);
    }

    /// Adds an entry whose charge is already computed. There must be room for it.
    pub fn push_counted(&mut self, e: Entry, charge: u32)
        requires charge { charge ≡ charge_of e.event }
        requires room { HasRoom self.old charge }
        ensures { self.new ≡ record self.old { entries = self.old.entries ++ e ∷ [] } }
    {
        self.bytes += u64::from(charge);
        let added = self.entries.push(e);
        prove!(added.is_ok());
        let _ = added; // only the proof reads it
    }

    /// Removes all entries. The room for them stays.
    pub fn clear(&mut self)
        ensures { self.new ≡ record self.old { entries = [] } }
    {
        self.entries.clear();
        self.bytes = 0;
    }

    /// The entries in order.
    pub fn entries(&self) -> &[Entry]
        ensures same { result.now ≡ self.now.entries }
        ensures within { length result.now ≤ self.now.limits.events }
        ensures most { length result.now ≤ 1_000_000 }
    {
        self.entries.as_slice()
    }

    /// The sum of the charges of the entries, in bytes.
    pub fn bytes(&self) -> u64
        ensures sum { result ≡ charge_of_all self.now.entries }
        ensures within { result ≤ self.now.limits.bytes }
        ensures most { result ≤ 1_073_741_824 }
        ensures limit { self.now.limits.bytes ≤ 1_073_741_824 }
    {
        self.bytes
    }
}
