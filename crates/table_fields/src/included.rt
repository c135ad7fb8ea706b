//! The texts that a keymap may include.
ghost use Rattle.std.specs.Prelude.{[], option_map};
ghost use Rattle.toml.specs.View.{table_view, view};
ghost use Rattle.table_fields.specs.Checked.{Gives, fault};
ghost use Rattle.table_fields.specs.Fields.{texts_after, texts_of};

use crate::fault::{TableError, refused};
use crate::fault_code::WRONG_KIND;
use key_text::Includes;
use std::alloc::Global;
use toml::{Table, Value};

/// The texts that a keymap may include, by their names. Fault 22 if the value is no table of texts.
pub fn texts(
    alloc: Global,
    value: Option<&Value>,
    part: u32,
    key: u32,
) -> Result<Includes, TableError>
    ensures { Gives (λ texts. texts) result
        (texts_of part key (option_map (λ v. view v.now) value.entry)) }
{
    let Some(value) = value else {
        return Ok(Includes::none(alloc));
    };
    match value.as_table() {
        Some(table) => table_texts(alloc, table, part, key),
        None => Err(refused(WRONG_KIND, part, key)),
    }
}

// The texts of a table.
fn table_texts(alloc: Global, table: &Table, part: u32, key: u32) -> Result<Includes, TableError>
    ensures { Gives (λ texts. texts) result
        (texts_after (fault 22 part key) [] (table_view table.now)) }
{
    let mut texts = Includes::none(alloc);
    for (name, value) in table.iter() {
        let Some(text) = value.as_str() else {
            return Err(refused(WRONG_KIND, part, key));
        };
        texts.add(alloc, name.as_bytes(), text.as_bytes())?;
    }
    Ok(texts)
}
