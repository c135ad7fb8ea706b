//! A large session that is made from a number.
ghost use Rattle.std.specs.Prelude.{◌≡◌, ◌≤◌, ◌∷◌, ◌++◌, true, map, IfOk, OnOk};
ghost use Rattle.std.specs.List.{range_with_len};
ghost use Rattle.session_run.specs.Drill.{HasDrillKeymap, IsDrill, drill_hooks, each, item, keys, opening_calls, script};
ghost use Rattle.session_text.specs.Scripts.{make_listed};
ghost use Rattle.session_text.specs.Sessions.{ArePrograms};
ghost use Rattle.session_text.specs.declared.program.Program.TheVariants as programs;
ghost use Rattle.vt_events.specs.Kinds.{text};

use crate::drill_draws::Draws;
use crate::drill_items::item;
use key_tables::KeyTables;
use key_text::Includes;
use session_text::{Items, Program, Session};
use sig_hooks::{Act, HookTable};
use std::alloc::Global;
use table_fields::keymap;
use vt_base::{Bytes, ConsoleNo, NoMemory, Signal, Size};
use vt_events::Event;
use vt_journal::Limits;
use vt_procs::{Config, ProcList, ProcStart};

/// How many processes a drill has, each with a console of its own.
const DRILL_PROCESSES: u8 = 8;

/// The consoles 1 to 8, bit n for console n.
const CONSOLE_SET: u64 = 0x1FE;

/// The session of eight processes with `n` items each, made from the seed.
pub fn drill_session(alloc: Global, n: u32, seed: u64) -> Result<Session, NoMemory>
    requires low { 1 ≤ n }
    requires high { n ≤ 10_000 }
    ensures { IfOk result (IsDrill n seed) }
{
    let tables = tables(alloc)?;
    let programs = programs(alloc, n, seed)?;
    let config = Config {
        size: Size { rows: 25, cols: 80 },
        consoles: CONSOLE_SET,
        front: ConsoleNo::numbered(1),
        keyboards: 1,
        procs: starts(),
    };
    let limits = Limits {
        events: 1_000_000,
        bytes: 1_073_741_824,
    };
    Ok(Session::make(config, tables, limits, Bytes::new(alloc), programs))
}

// The tables of its keymap. It has no fault, so only want of memory is an error.
fn tables(alloc: Global) -> Result<KeyTables, NoMemory>
    ensures { IfOk result HasDrillKeymap }
{
    match keymap(alloc, &Includes::none(alloc), "keycode 30 = a") {
        Ok(tables) => Ok(tables),
        Err(_error) => Err(NoMemory),
    }
}

// The state in which its processes begin.
fn starts() -> ProcList
    ensures { result ≡ map (λ p. record { home = p; privileged = true }) (range_with_len 1 8) }
{
    let mut starts = ProcList::new();
    for i in 0..DRILL_PROCESSES {
        starts.push(ProcStart {
            home: 1 + i,
            privileged: true,
        });
    }
    starts
}

// The programs of its callers.
fn programs(alloc: Global, n: u32, seed: u64) -> Result<Vec<Program>, NoMemory>
    requires { n ≤ 10_000 }
    ensures programs { IfOk result (λ list. list.items
        ≡ programs.Keys (text (keys n)) ∷ (each (script n) 8 1 seed).0) }
    ensures are { IfOk result (λ list. ArePrograms 8 1 list.items) }
{
    let mut draws = Draws::new(seed);
    let mut list = Vec::new(alloc);
    list.push(Program::Keys(keys(alloc, n)?))?;
    for i in 0..DRILL_PROCESSES {
        list.push(script(alloc, &mut draws, n, 1 + u16::from(i))?)?;
    }
    Ok(list)
}

// A key that goes down and up, so many times.
fn keys(alloc: Global, n: u32) -> Result<Bytes, NoMemory>
    ensures { IfOk result (λ bytes. bytes ≡ text (keys n)) }
{
    let mut bytes = Bytes::with_room(alloc, 2 * n as usize)?;
    for _i in 0..n {
        bytes.append(b"\x1e\x9e");
    }
    Ok(bytes)
}

// The script of a process.
fn script(alloc: Global, draws: &mut Draws, n: u32, p: u16) -> Result<Program, NoMemory>
    ensures value { IfOk result (λ made. made ≡ (script n p draws.old).0) }
    ensures next { OnOk result (draws.new ≡ (script n p draws.old).1) }
{
    let items = items(alloc, draws, n, p)?;
    Ok(Program::Script {
        items,
        hooks: hooks(),
    })
}

// The calls of a process: those that it begins with, and its items.
fn items(alloc: Global, draws: &mut Draws, n: u32, p: u16) -> Result<Items, NoMemory>
    ensures value { IfOk result (λ items. items
        ≡ make_listed (opening_calls p ++ (each item n 0 draws.old).0)) }
    ensures next { OnOk result (draws.new ≡ (each item n 0 draws.old).1) }
{
    let mut items = first_calls(alloc, n, p)?;
    for _i in 0..n {
        items.push(item(alloc, draws)?);
    }
    Ok(items)
}

// The calls that a process begins with, and room for `n` more.
fn first_calls(alloc: Global, n: u32, p: u16) -> Result<Items, NoMemory>
    ensures calls { IfOk result (λ items. items.events ≡ opening_calls p) }
    ensures room { IfOk result (λ items. items.room ≡ n) }
{
    let n = n as usize;
    if p % 2 == 1 {
        let mut items = Items::with_room(alloc, n + 2)?;
        items.push(Event::OpenCon(p));
        items.push(Event::SetMode(0, 1, 0, 10, 12, 0));
        Ok(items)
    } else {
        let mut items = Items::with_room(alloc, n + 1)?;
        items.push(Event::OpenCon(p));
        Ok(items)
    }
}

// The act of each process at signals.
fn hooks() -> HookTable
    ensures { result ≡ drill_hooks }
{
    let mut hooks = HookTable::empty();
    hooks.set(Signal::numbered(10), Act::Disp { fd: 0, arg: 1 });
    hooks.set(Signal::numbered(12), Act::Disp { fd: 0, arg: 2 });
    hooks
}
