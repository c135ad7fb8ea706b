//! Makes a machine, and frees it.
ghost use Rattle.std.specs.Prelude.{◌≡◌, ◌≤◌, [], IfNone, IfOk, IfSome, None, Some, replicate};
ghost use Rattle.c_calls.specs.Codes.{MADE, RANGE};
ghost use Rattle.machine.specs.History.{world_of};
ghost use Rattle.machine_c.specs.Started.{IsConfigOf, IsInRange, Makes};
ghost use Rattle.vt_base.specs.ConsoleSet.{IsFitSet};
ghost use Rattle.vt_procs.specs.Callers.{IsFitCount};

use crate::handle::MachineHandle;
use crate::keymap::tables_in;
use crate::starting::config_of;
use crate::vt_seat::VtSeat;
use crate::vt_start::VtStart;
use c_calls::{VtFault, code};
use key_tables::KeyTables;
use key_text::KeyError;
use machine::Machine;
use std::alloc::Global;
use vt_base::NoMemory;
use vt_journal::Limits;
use vt_procs::Config;

/// Makes a machine with these processes and the tables of this keymap. If the keymap has a fault, `fault` is the first
/// one.
#[unsafe(no_mangle)]
pub extern "C" fn vt_nonnull_machine_new(
    h: &mut MachineHandle,
    start: &VtStart,
    seats: &[VtSeat],
    keymap: &[u8],
    fault: &mut VtFault,
    alloc: Global,
) -> u8
    ensures made { IfSome h.old.value (λ m. (result ≡ MADE) × (h.new.value ≡ Some m) × (fault.new ≡ fault.old)) }
    ensures range { IfNone h.old.value (¬ IsInRange start.now seats.now
        → (result ≡ RANGE) × (h.new.value ≡ None) × (fault.new ≡ fault.old)) }
    ensures fine { IfNone h.old.value (IsInRange start.now seats.now
        → Makes start.now seats.now keymap.now fault.old fault.new h.new.value result) }
{
    match h.take(alloc) {
        Some(machine) => {
            h.put(machine);
            code::MADE
        }
        None => make(h, start, seats, keymap, fault, alloc),
    }
}

// Makes a machine for a handle without one.
fn make(
    h: &mut MachineHandle,
    start: &VtStart,
    seats: &[VtSeat],
    keymap: &[u8],
    fault: &mut VtFault,
    alloc: Global,
) -> u8
    requires { h.old.value ≡ None }
    ensures range { ¬ IsInRange start.now seats.now
        → (result ≡ RANGE) × (h.new.value ≡ None) × (fault.new ≡ fault.old) }
    ensures fine { IsInRange start.now seats.now
        → Makes start.now seats.now keymap.now fault.old fault.new h.new.value result }
{
    match config_of(start, seats) {
        None => code::RANGE,
        Some(config) => make_as(h, start, seats, config, keymap, fault, alloc),
    }
}

// Makes a machine that starts so.
fn make_as(
    h: &mut MachineHandle,
    start: &VtStart,
    seats: &[VtSeat],
    config: Config,
    keymap: &[u8],
    fault: &mut VtFault,
    alloc: Global,
) -> u8
    requires empty { h.old.value ≡ None }
    requires range { IsInRange start.now seats.now }
    requires config { IsConfigOf start.now seats.now config }
    ensures { Makes start.now seats.now keymap.now fault.old fault.new h.new.value result }
{
    match tables_in(alloc, keymap) {
        Ok(tables) => match boxed(alloc, start, config, tables) {
            Ok(machine) => {
                h.put(machine);
                code::OK
            }
            Err(_) => code::NO_MEMORY,
        },
        Err(KeyError::Fault(first)) => {
            *fault = VtFault::at(first.line, first.column, u32::from(first.kind));
            code::FAULT
        }
        Err(KeyError::NoMemory) => code::NO_MEMORY,
    }
}

// A machine at its start, in a block of its own.
fn boxed(
    alloc: Global,
    start: &VtStart,
    config: Config,
    tables: KeyTables,
) -> Result<Box<Machine>, NoMemory>
    requires consoles { IsFitSet config.consoles config.front }
    requires keyboards { IsFitCount config.keyboards }
    requires events { start.now.events ≤ 1_000_000 }
    requires bytes { start.now.bytes ≤ 1_073_741_824 }
    ensures { IfOk result (λ m. m.value ≡ record {
      start = record { config = config; tables = tables };
      world = world_of (record { config = config; tables = tables });
      made = replicate 68 0;
      gone = 0;
      log = record { entries = []; limits = record { events = start.now.events; bytes = start.now.bytes } };
    }) }
{
    let limits = Limits {
        events: start.events,
        bytes: start.bytes,
    };
    let machine = Machine::new(alloc, config, tables, limits)?;
    let boxed = Box::new(alloc, machine)?;
    Ok(boxed)
}

/// Frees the handle's machine, if it has one.
#[unsafe(no_mangle)]
pub extern "C" fn vt_machine_free(h: &mut MachineHandle, alloc: Global)
    ensures { h.new.value ≡ None }
{
    let _ = h.take(alloc);
}
