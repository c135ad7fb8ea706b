//! `keys`: the listing of the tables of a keymap text.
ghost use Rattle.std.specs.Prelude.{◌≡◌, ◌⊎◌, IfOk, IsTrue};
ghost use Rattle.key_compile.specs.Dumpable.{is_dumpable};
ghost use Rattle.key_tables.specs.Listing.{listing_of};
ghost use Rattle.vt_tool.specs.Commands.Keys.{GivesKeyFault, GivesListing, ReadsKeymap};
ghost use Rattle.vt_tool.specs.Outcome.{fine_text, no_text};

use crate::answer::Answer;
use crate::status::Status;
use key_compile::compile;
use key_tables::KeyTables;
use key_text::{Includes, KeyError, KeyFault, parse};
use std::alloc::Global;
use vt_base::NoMemory;

/// The listing of the tables of the keymap text, or its first fault.
pub(crate) fn answer(alloc: Global, input: &[u8]) -> Result<Answer, NoMemory>
    ensures { IfOk result (λ answer. GivesListing input.now answer ⊎ GivesKeyFault input.now answer) }
{
    match tables_in(alloc, input) {
        Ok(tables) => answer_listed(alloc, &tables),
        Err(KeyError::Fault(fault)) => Ok(answer_refused(alloc, fault)),
        Err(KeyError::NoMemory) => Err(NoMemory),
    }
}

/// The tables of the keymap text, or its first fault.
pub(crate) fn tables_in(alloc: Global, input: &[u8]) -> Result<KeyTables, KeyError>
    ensures read { ReadsKeymap input.now result }
    ensures dumpable { IfOk result (λ tables. IsTrue (is_dumpable tables)) }
{
    let lines = parse(alloc, input, &Includes::none(alloc))?;
    compile(alloc, lines.as_slice())
}

fn answer_listed(alloc: Global, tables: &KeyTables) -> Result<Answer, NoMemory>
    ensures { IfOk result (λ answer. answer ≡ fine_text (listing_of tables.now)) }
{
    Ok(Answer::fine(tables.listing(alloc)?))
}

/// The answer to a keymap text that is refused at this fault.
pub(crate) fn answer_refused(alloc: Global, fault: KeyFault) -> Answer
    ensures { result ≡ no_text (Status.Refused fault.kind fault.line fault.column) }
{
    Answer::refused(alloc, fault.kind, fault.line, fault.column)
}
