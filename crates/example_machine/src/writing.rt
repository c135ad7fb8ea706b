//! The journal as it is written.
use machine::Machine;
use std::alloc::Global;
use vt_base::{Bytes, NoMemory};
use vt_journal::{Tail, print_entry, print_first, print_tail};

/// The lines that were written, with the number of their entries and the sum of their charges, each at most the
/// greatest of its type.
#[derive(Drop)]
pub(crate) struct Written {
    lines: Bytes,
    events: u32,
    bytes: u64,
}

impl Written {
    /// The first line.
    pub(crate) fn new(alloc: Global) -> Result<Written, NoMemory> {
        let mut lines = Bytes::new(alloc);
        print_first(alloc, 2, &mut lines)?;
        Ok(Written {
            lines,
            events: 0,
            bytes: 0,
        })
    }

    /// Writes the entries of the machine's journal, and empties that.
    pub(crate) fn write(&mut self, alloc: Global, machine: &mut Machine) -> Result<(), NoMemory> {
        let log = machine.log();
        for entry in log.entries() {
            print_entry(alloc, entry, 2, &mut self.lines)?;
        }
        self.events = self.events.saturating_add(log.entries().len() as u32);
        self.bytes = self.bytes.saturating_add(log.bytes());
        machine.forget();
        Ok(())
    }

    /// All lines, with the last one.
    pub(crate) fn end(self, alloc: Global) -> Result<Bytes, NoMemory> {
        let end = Tail::End {
            events: self.events,
            bytes: self.bytes,
        };
        let mut lines = self.lines;
        print_tail(alloc, &end, &mut lines)?;
        Ok(lines)
    }
}
