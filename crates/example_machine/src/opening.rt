//! `opened`: the example's machine at the start.
use key_tables::KeyTables;
use machine::Machine;
use std::alloc::Global;
use vt_base::{ConsoleNo, NoMemory, Size};
use vt_journal::Limits;
use vt_procs::{Config, ProcList, ProcStart};

/// Consoles 1 and 2: bit n is console n.
const CONSOLE_SET: u64 = 0b110;

/// A machine with two processes that no program has yet, and room for four entries. Its keyboard is not used.
pub(crate) fn opened(alloc: Global) -> Result<Machine, NoMemory> {
    let config = Config {
        size: Size { rows: 25, cols: 80 },
        consoles: CONSOLE_SET,
        front: ConsoleNo::numbered(1),
        procs: ProcList::of(&[ProcStart::default(); 2]),
        keyboards: 1,
    };
    let limits = Limits {
        events: 4,
        bytes: 65_536,
    };
    Machine::new(alloc, config, KeyTables::empty(alloc, &[0])?, limits)
}
