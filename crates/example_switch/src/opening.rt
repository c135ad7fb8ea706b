//! The machine at the start, and the first calls of both processes.
use crate::calling::{asker, server};
use key_tables::KeyTables;
use std::alloc::Global;
use vt_base::{ConsoleNo, NoMemory, Size};
use vt_events::Event;
use vt_procs::{Config, ProcList, ProcStart};
use vt_world::World;

/// Consoles 1 and 2: bit n is console n.
const CONSOLE_SET: u64 = 0b110;

/// Signal 10 asks process 1 to let the display go, and signal 12 reports that it came back.
const BY_SIGNALS: Event = Event::SetMode(0, 1, 0, 10, 12, 0);

/// A machine on which each process has its own console open as descriptor 0.
pub(crate) fn opened(alloc: Global) -> Result<World, NoMemory> {
    let mut world = started(alloc)?;
    world.call(alloc, server(), &Event::OpenCon(1))?;
    world.call(alloc, server(), &BY_SIGNALS)?;
    world.call(alloc, asker(), &Event::OpenCon(2))?;
    Ok(world)
}

// Console 1 is in front, and no key types anything. Each process is at home on the console of its number, whose
// switches it may handle.
fn started(alloc: Global) -> Result<World, NoMemory> {
    let mut procs = ProcList::new();
    procs.push(ProcStart {
        home: 1,
        privileged: false,
    });
    procs.push(ProcStart {
        home: 2,
        privileged: false,
    });
    let config = Config {
        size: Size { rows: 25, cols: 80 },
        consoles: CONSOLE_SET,
        front: ConsoleNo::numbered(1),
        procs,
        keyboards: 1,
    };
    let tables = KeyTables::empty(alloc, &[0])?;
    World::start(alloc, &config, &tables)
}
