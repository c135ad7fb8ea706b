//! `type`: the keys that a table types, and their output.
ghost use Rattle.std.specs.Prelude.{◌≡◌, ◌≤◌, ◌⊎◌, IfOk};
ghost use Rattle.vt_tool.specs.Commands.Typing.{GivesTableFault, GivesTyped, typed_text};
ghost use Rattle.vt_tool.specs.Outcome.{fine_text};

mod lines;
mod type_table;
mod typist;

use crate::answer::{Answer, refused};
use crate::commands::typing::lines::add_typed;
use crate::commands::typing::type_table::{TypeTable, read_type_table};
use std::alloc::Global;
use table_fields::TableError;
use vt_base::{Bytes, NoMemory};

/// A line for each scan byte of the table, or the table's first fault.
pub(crate) fn answer(alloc: Global, input: &[u8]) -> Result<Answer, NoMemory>
    ensures { IfOk result (λ answer. GivesTyped input.now answer ⊎ GivesTableFault input.now answer) }
{
    match read_type_table(alloc, input) {
        Ok(table) => answer_typed(alloc, &table),
        Err(TableError::Fault(fault)) => Ok(refused(alloc, fault)),
        Err(TableError::NoMemory) => Err(NoMemory),
    }
}

fn answer_typed(alloc: Global, table: &TypeTable) -> Result<Answer, NoMemory>
    requires { table.now.mode ≤ 4 }
    ensures { IfOk result (λ answer. answer
        ≡ fine_text (typed_text table.now.tables table.now.mode table.now.keys.bytes)) }
{
    let mut text = Bytes::new(alloc);
    add_typed(
        alloc,
        &mut text,
        &table.tables,
        table.mode,
        table.keys.as_slice(),
    )?;
    Ok(Answer::fine(text))
}
