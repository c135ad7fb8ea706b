//! `dumpkeys`: the tables of a keymap text as a keymap text.
ghost use Rattle.std.specs.Prelude.{◌≡◌, ◌⊎◌, IfOk, IsTrue};
ghost use Rattle.key_compile.specs.Dumpable.{is_dumpable};
ghost use Rattle.key_dump.specs.Dump.{dump_of};
ghost use Rattle.key_dump.specs.ReadsBack.{ReadsAs};
ghost use Rattle.vt_tool.specs.Commands.Dump.{GivesDump};
ghost use Rattle.vt_tool.specs.Commands.Keys.{GivesKeyFault};
ghost use Rattle.vt_tool.specs.Outcome.{fine_text};

use crate::answer::Answer;
use crate::commands::keys::{answer_refused, tables_in};
use key_dump::dump;
use key_tables::KeyTables;
use key_text::KeyError;
use std::alloc::Global;
use vt_base::NoMemory;

/// The dump of the tables of the keymap text, or its first fault.
pub(crate) fn answer(alloc: Global, input: &[u8]) -> Result<Answer, NoMemory>
    ensures { IfOk result (λ answer. GivesDump input.now answer ⊎ GivesKeyFault input.now answer) }
{
    match tables_in(alloc, input) {
        Ok(tables) => answer_dumped(alloc, &tables),
        Err(KeyError::Fault(fault)) => Ok(answer_refused(alloc, fault)),
        Err(KeyError::NoMemory) => Err(NoMemory),
    }
}

fn answer_dumped(alloc: Global, tables: &KeyTables) -> Result<Answer, NoMemory>
    requires { IsTrue (is_dumpable tables.now) }
    ensures dump { IfOk result (λ answer. answer ≡ fine_text (dump_of tables.now)) }
    ensures back { IfOk result (λ answer. ReadsAs answer.text tables.now) }
{
    Ok(Answer::fine(dump(alloc, tables)?))
}
