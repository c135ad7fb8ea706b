//! The starts of processes, and their programs.
ghost use Rattle.std.specs.Prelude.{◌≡◌, ◌≤◌, ◌∷◌, ◌++◌, length, map, IfOk};
ghost use Rattle.session_text.specs.Sessions.{script_of};
ghost use Rattle.session_text.specs.declared.program.Program.TheVariants as programs;

use crate::Program;
use crate::process::Process;
use std::alloc::Global;
use vt_base::{Bytes, NoMemory};
use vt_procs::ProcList;

/// The starts of the processes.
pub(crate) fn starts(processes: &[Process]) -> ProcList
    requires { length processes.now ≤ 64 }
    ensures { result ≡ map (λ process. process.start) processes.now }
{
    let mut starts = ProcList::new();
    for process in processes {
        starts.push(process.start);
    }
    starts
}

/// The programs of the callers: the first keyboard's, then one for each process, and then those of the
/// further keyboards.
pub(crate) fn programs(
    alloc: Global,
    keys: Bytes,
    processes: Vec<Process>,
    further: Vec<Bytes>,
) -> Result<Vec<Program>, NoMemory>
    ensures { IfOk result (λ list. list.items
        ≡ programs.Keys keys ∷ map script_of processes.items
        ++ map (λ keys. programs.Keys keys) further.items) }
{
    let mut list = scripts(alloc, keys, processes)?;
    for keys in further {
        list.push(Program::Keys(keys))?;
    }
    Ok(list)
}

// The first keyboard's program, and the processes'.
fn scripts(alloc: Global, keys: Bytes, processes: Vec<Process>) -> Result<Vec<Program>, NoMemory>
    ensures { IfOk result
        (λ list. list.items ≡ programs.Keys keys ∷ map script_of processes.items) }
{
    let mut list = Vec::new(alloc);
    list.push(Program::Keys(keys))?;
    for process in processes {
        list.push(Program::Script {
            items: process.items,
            hooks: process.hooks,
        })?;
    }
    Ok(list)
}
