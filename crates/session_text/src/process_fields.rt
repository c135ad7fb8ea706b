//! The processes of a session's table.
ghost use Rattle.std.specs.Prelude.{◌≡◌, ◌≤◌, length, map, IfOk, string_bytes};
ghost use Rattle.std.specs.List.{All, list_all};
ghost use Rattle.std.specs.Map.{keys_of};
ghost use Rattle.table_fields.specs.Checked.{Gives};
ghost use Rattle.table_fields.specs.Fields.{keys_pass};
ghost use Rattle.toml.specs.View.{table_view};
ghost use Rattle.session_text.specs.Processes.{Head as HeadView, head_of, is_process_key, most_items};
ghost use Rattle.session_text.specs.Says.{Reads, each_says};
ghost use Rattle.session_text.specs.Scripts.{IsScript, process_says};

use crate::hooks::hooks;
use crate::process::Process;
use crate::script_items::items;
use std::alloc::Global;
use table_fields::fault_code::{TOO_MANY, UNKNOWN_KEY};
use table_fields::{Numbers, TableError, at, flag, number, refused, strings};
use toml::Table;
use vt_procs::ProcStart;

/// The most items of a script. This project's own.
const ITEMS: usize = 10_240;

/// The console that a process may handle without privilege, 0 for none.
const HOMES: Numbers = Numbers {
    default: 0,
    low: 0,
    high: 63,
};

// The start of a process, and the texts of its script.
#[derive(Drop)]
struct ProcessTable<'a> {
    start: ProcStart,
    script: Vec<&'a str>,
}

/// Process `part` of a session, from its table.
pub(crate) fn process(alloc: Global, part: u32, table: &Table) -> Result<Process, TableError>
    ensures says { Reads (λ process. process) result (process_says part (table_view table.now)) }
    ensures script { IfOk result (λ process. IsScript process.items) }
{
    let head = read_head(alloc, part, table)?;
    let items = items(alloc, part, head.script.as_slice())?;
    let texts = strings(alloc, at(table, "hooks"), part, 4)?;
    match hooks(alloc, part, texts.as_slice()) {
        Ok(hooked) => Ok(Process {
            start: head.start,
            items,
            hooks: hooked.acts,
        }),
        Err(e) => Err(e),
    }
}

/// The processes of a session, each from its table.
pub(crate) fn processes(alloc: Global, tables: &[&Table]) -> Result<Vec<Process>, TableError>
    requires { length tables.now ≤ 64 }
    ensures says { Reads (λ found. found.items) result
        (each_says process_says 1 (map (λ table. table_view table.now) tables.now)) }
    ensures many { IfOk result (λ found. length found.items ≡ length tables.now) }
    ensures scripts { IfOk result (λ found. All (λ process. IsScript process.items) found.items) }
{
    let mut found = Vec::new(alloc);
    for (i, table) in tables.iter().enumerate() {
        match process(alloc, i as u32 + 1, table) {
            Ok(process) => found.push(process)?,
            Err(e) => return Err(e),
        }
    }
    Ok(found)
}

// The first three keys.
fn read_head<'a>(alloc: Global, part: u32, table: &'a Table) -> Result<ProcessTable<'a>, TableError>
    ensures head { Gives
        (λ head. record { start = head.start; script = map (λ text. text.now) head.script.items }) result
        (head_of part (table_view table.entry.now)) }
    ensures few { IfOk result (λ head. length head.script.items ≤ most_items) }
{
    if !knows_keys(table) {
        return Err(refused(UNKNOWN_KEY, part, 0));
    }
    let home = number(at(table, "home"), part, 1, HOMES)?;
    let privileged = flag(at(table, "privileged"), part, 2)?;
    let script = strings(alloc, at(table, "script"), part, 3)?;
    if script.len() > ITEMS {
        return Err(refused(TOO_MANY, part, 3));
    }
    let start = ProcStart {
        home: home as u8,
        privileged,
    };
    Ok(ProcessTable { start, script })
}

#[tactic(auto, using(table_fields::proofs::Keys::keys_view))]
fn knows_keys(table: &Table) -> bool
    ensures { result ≡ keys_pass is_process_key (table_view table.now) }
{
    all_known(table)
}

// Whether every key is known.
fn all_known(table: &Table) -> bool
    ensures { result ≡ list_all (λ key. is_process_key (string_bytes key))
        (keys_of table.now.entries) }
{
    table.keys().all(|key| is_process_key(key.as_str()))
}

fn is_process_key(key: &str) -> bool
    ensures { result ≡ is_process_key key.now }
{
    key == "home" || key == "privileged" || key == "script" || key == "hooks"
}
