ghost use Rattle.std.specs.Prelude.{◌≡◌, ◌≤◌, IfOk, IsTrue, string_bytes};
ghost use Rattle.std.specs.List.{list_all};
ghost use Rattle.std.specs.Map.{keys_of};
ghost use Rattle.toml.specs.View.{table_view};
ghost use Rattle.table_fields.specs.Checked.{GivesBy};
ghost use Rattle.table_fields.specs.Fields.{keys_pass};
ghost use Rattle.vt_tool.specs.Commands.Typed.{IsReadAs};
ghost use Rattle.vt_tool.specs.Commands.Typing.{is_type_key, type_table_at, type_table_of};

use key_tables::KeyTables;
use std::alloc::Global;
use table_fields::fault_code::UNKNOWN_KEY;
use table_fields::{
    Numbers, TableError, at, document, keymap, number, refused, scan_bytes, text, texts,
};
use toml::Table;
use vt_base::Bytes;

/// The keyboard modes, by default K_UNICODE (ioctl_console(2), KDSKBMODE).
const MODES: Numbers = Numbers {
    default: 3,
    low: 0,
    high: 4,
};

/// The input of `type`: the keyboard mode, the tables of the keymap, and the scan bytes.
#[derive(Drop)]
pub(crate) struct TypeTable {
    pub mode: u8,
    pub tables: KeyTables,
    pub keys: Bytes,
}

/// The table of the text, or its first fault.
pub(crate) fn read_type_table(alloc: Global, input: &[u8]) -> Result<TypeTable, TableError>
    ensures table { GivesBy IsReadAs result (type_table_of input.now) }
    ensures mode { IfOk result (λ table. table.mode ≤ 4) }
{
    let table = document(alloc, input)?;
    read_fields(alloc, &table)
}

// The fields in the order of their numbers.
fn read_fields(alloc: Global, table: &Table) -> Result<TypeTable, TableError>
    ensures table { GivesBy IsReadAs result (type_table_at (table_view table.now)) }
    ensures mode { IfOk result (λ table. table.mode ≤ 4) }
{
    if !knows_keys(table) {
        return Err(refused(UNKNOWN_KEY, 0, 0));
    }
    let mode = number(at(table, "mode"), 0, 1, MODES)?;
    let included = texts(alloc, at(table, "include"), 0, 2)?;
    let keymap_text = text(at(table, "keymap"), 0, 3)?;
    let tables = keymap(alloc, &included, keymap_text)?;
    let keys_text = text(at(table, "keys"), 0, 4)?;
    let keys = scan_bytes(alloc, keys_text, 0, 4)?;
    Ok(TypeTable {
        mode: mode as u8,
        tables,
        keys,
    })
}

#[tactic(auto, using(table_fields::proofs::Keys::keys_view))]
fn knows_keys(table: &Table) -> bool
    ensures { result ≡ keys_pass is_type_key (table_view table.now) }
{
    all_known(table)
}

// Whether every key is known.
fn all_known(table: &Table) -> bool
    ensures { result ≡ list_all (λ key. is_type_key (string_bytes key)) (keys_of table.now.entries) }
{
    table.keys().all(|key| is_type_key(key.as_str()))
}

fn is_type_key(key: &str) -> bool
    ensures { result ≡ is_type_key key.now }
{
    key == "mode" || key == "include" || key == "keymap" || key == "keys"
}
