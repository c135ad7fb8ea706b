//! The first keyboard of a session, read from its table.
ghost use Rattle.std.specs.Prelude.{◌≤◌, length, IfOk};
ghost use Rattle.table_fields.specs.Checked.{GivesBy};
ghost use Rattle.table_fields.specs.Fields.{most_scan_bytes};
ghost use Rattle.toml.specs.View.{table_view};
ghost use Rattle.session_text.specs.Keyboards.{IsKeyboardOf, typed_of};

use crate::session_keyboard::SessionKeyboard;
use std::alloc::Global;
use table_fields::{TableError, at, keymap, scan_bytes, text, texts};
use toml::Table;

/// The keymap and the scan bytes of a session's table.
pub(crate) fn keyboard(alloc: Global, table: &Table) -> Result<SessionKeyboard, TableError>
    ensures keyboard { GivesBy IsKeyboardOf result (typed_of (table_view table.now)) }
    ensures few { IfOk result (λ k. length k.keys.bytes ≤ most_scan_bytes) }
{
    let included = texts(alloc, at(table, "include"), 0, 7)?;
    let keymap_text = text(at(table, "keymap"), 0, 8)?;
    let tables = keymap(alloc, &included, keymap_text)?;
    let items = text(at(table, "keys"), 0, 9)?;
    let keys = scan_bytes(alloc, items, 0, 9)?;
    Ok(SessionKeyboard { tables, keys })
}
