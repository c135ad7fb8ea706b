//! A session's table except its processes.
ghost use Rattle.std.specs.Prelude.{◌≡◌, IfOk, string_bytes};
ghost use Rattle.std.specs.List.{list_all};
ghost use Rattle.std.specs.Map.{keys_of};
ghost use Rattle.table_fields.specs.Checked.{GivesBy};
ghost use Rattle.table_fields.specs.Fields.{keys_pass};
ghost use Rattle.toml.specs.View.{table_view};
ghost use Rattle.session_text.specs.Parts.{IsFitTop, IsTop};
ghost use Rattle.session_text.specs.Tops.{is_screen_key, is_top_key, top_of};

use crate::further::{further, keyboard_count};
use crate::header_fields::opening;
use crate::keyboard_fields::keyboard;
use crate::session_header::SessionHeader;
use crate::session_keyboard::SessionKeyboard;
use crate::turns::turns;
use std::alloc::Global;
use table_fields::fault_code::{OUT_OF_RANGE, UNKNOWN_KEY};
use table_fields::{TableError, at, count, refused, tables};
use toml::Table;
use vt_base::{Bytes, PROCESSES};

/// The values of a session's table, and the tables of its processes.
#[derive(Drop)]
pub(crate) struct SessionTable<'a> {
    pub opening: SessionHeader,
    pub keyboard: SessionKeyboard,
    pub turns: Bytes,
    pub tables: Vec<&'a Table>,
    /// The scan bytes of the further keyboards.
    pub further: Vec<Bytes>,
}

/// The keys in the order of the checks.
pub(crate) fn read_top<'a>(alloc: Global, table: &'a Table) -> Result<SessionTable<'a>, TableError>
    ensures top { GivesBy IsTop result (top_of (table_view table.entry.now)) }
    ensures fit { IfOk result IsFitTop }
{
    if !knows_keys(table) {
        return Err(refused(UNKNOWN_KEY, 0, 0));
    }
    let opening = opening(alloc, table)?;
    let keyboard = keyboard(alloc, table)?;
    let list = at(table, "process");
    let more = at(table, "more_keys");
    let keyboards = keyboard_count(more);
    let turns = turns(alloc, count(list), keyboards, at(table, "turns"))?;
    let tables = tables(alloc, list, 0, 11)?;
    if tables.len() > PROCESSES {
        return Err(refused(OUT_OF_RANGE, 0, 11));
    }
    let further = further(alloc, more)?;
    Ok(SessionTable {
        opening,
        keyboard,
        turns,
        tables,
        further,
    })
}

#[tactic(auto, using(table_fields::proofs::Keys::keys_view))]
fn knows_keys(table: &Table) -> bool
    ensures { result ≡ keys_pass is_top_key (table_view table.now) }
{
    all_known(table)
}

// Whether every key is known.
fn all_known(table: &Table) -> bool
    ensures { result ≡ list_all (λ key. is_top_key (string_bytes key)) (keys_of table.now.entries) }
{
    table.keys().all(|key| is_top_key(key.as_str()))
}

fn is_top_key(key: &str) -> bool
    ensures { result ≡ is_top_key key.now }
{
    is_screen_key(key)
        || key == "include"
        || key == "keymap"
        || key == "keys"
        || key == "turns"
        || key == "process"
        || key == "more_keys"
}

fn is_screen_key(key: &str) -> bool
    ensures { result ≡ is_screen_key key.now }
{
    key == "rows"
        || key == "cols"
        || key == "consoles"
        || key == "front"
        || key == "events"
        || key == "bytes"
}
