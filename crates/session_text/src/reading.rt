//! Reading a session from its text.
ghost use Rattle.std.specs.Prelude.{IfOk};
ghost use Rattle.toml.specs.View.{table_view};
ghost use Rattle.session_text.specs.Parts.{AreFit, AreOf};
ghost use Rattle.session_text.specs.Says.{ReadsBy};
ghost use Rattle.session_text.specs.Sessions.{IsSessionOf, session_at, session_says};

use crate::Session;
use crate::making::session;
use crate::parts::SessionParts;
use crate::process_fields::processes;
use crate::tops::read_top;
use std::alloc::Global;
use table_fields::{TableError, document};
use toml::Table;

/// The session of the text, or the text's first fault.
pub fn read(alloc: Global, text: &[u8]) -> Result<Session, TableError>
    ensures { ReadsBy IsSessionOf result (session_says text.now) }
{
    let table = document(alloc, text)?;
    read_table(alloc, &table)
}

fn read_table(alloc: Global, table: &Table) -> Result<Session, TableError>
    ensures { ReadsBy IsSessionOf result (session_at (table_view table.now)) }
{
    let parts = read_parts(alloc, table)?;
    Ok(session(alloc, parts)?)
}

fn read_parts(alloc: Global, table: &Table) -> Result<SessionParts, TableError>
    ensures parts { ReadsBy AreOf result (session_at (table_view table.now)) }
    ensures fit { IfOk result AreFit }
{
    let top = read_top(alloc, table)?;
    match processes(alloc, top.tables.as_slice()) {
        Ok(processes) => Ok(SessionParts {
            opening: top.opening,
            keyboard: top.keyboard,
            turns: top.turns,
            processes,
            further: top.further,
        }),
        Err(e) => Err(e),
    }
}
