//! `started`: the machine of the example's hub at the start.
ghost use Rattle.std.specs.Prelude.{◌≡◌, ℕ, false, IfOk};
ghost use Rattle.vt_world.specs.State.{is_waiting};

use key_tables::KeyTables;
use std::alloc::Global;
use vt_base::{ConsoleNo, NoMemory, Size};
use vt_procs::{Config, ProcList, ProcStart};
use vt_world::{World, nobody_waits_at_start};

/// Consoles 1 and 2: bit n is console n.
const CONSOLE_SET: u64 = 0b110;

/// Console 1 is in front, and no key types anything. Processes 1 and 2 are each at home on the console of their number.
pub(crate) fn started(alloc: Global) -> Result<World, NoMemory>
    ensures { IfOk result (λ world. (p : ℕ) → is_waiting world p ≡ false) }
{
    nobody_waits_at_start();
    let tables = KeyTables::empty(alloc, &[0])?;
    let config = Config {
        size: Size { rows: 2, cols: 20 },
        consoles: CONSOLE_SET,
        front: ConsoleNo::numbered(1),
        procs: processes(),
        keyboards: 1,
    };
    let world = World::start(alloc, &config, &tables)?;
    Ok(world)
}

fn processes() -> ProcList {
    let mut list = ProcList::new();
    list.push(at_home(1));
    list.push(at_home(2));
    list
}

fn at_home(home: u8) -> ProcStart {
    ProcStart {
        home,
        privileged: false,
    }
}
