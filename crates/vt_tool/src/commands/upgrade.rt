//! `upgrade`: a journal of version 1 in version 2.
ghost use Rattle.std.specs.Prelude.{◌≡◌, true, false, IfOk};
ghost use Rattle.vt_journal.specs.Journal.{journal_text};
ghost use Rattle.vt_journal.specs.Says.{HasFirst};
ghost use Rattle.vt_tool.specs.Commands.Upgrade.{GivesUpgraded};
ghost use Rattle.vt_tool.specs.Outcome.{fine_text};

use crate::answer::Answer;
use crate::commands::judging::answer_refused;
use std::alloc::Global;
use vt_base::{Bytes, NoMemory};
use vt_journal::{JError, Journal, parse, print, version_of};

/// The kind of the fault of a text that begins as a journal of version 2.
const NO_FIRST: u16 = 40;

/// The journal in version 2, or its first fault: a journal of version 2 has no first line here.
pub(crate) fn answer(alloc: Global, input: &[u8]) -> Result<Answer, NoMemory>
    ensures { IfOk result (GivesUpgraded input.now) }
{
    if is_newer(input) {
        return Ok(Answer::refused(alloc, NO_FIRST, 0, 0));
    }
    match parse(alloc, input) {
        Ok(journal) => answer_printed(alloc, &journal),
        Err(JError::Fault(fault)) => Ok(answer_refused(alloc, fault)),
        Err(JError::NoMemory) => Err(NoMemory),
    }
}

// The text begins with the first line of version 2.
fn is_newer(input: &[u8]) -> bool
    ensures yes { result ≡ true → HasFirst 2 input.now }
    ensures no { result ≡ false → ¬ HasFirst 2 input.now }
{
    match version_of(input) {
        Some(version) => version == 2,
        None => false,
    }
}

fn answer_printed(alloc: Global, journal: &Journal) -> Result<Answer, NoMemory>
    ensures { IfOk result (λ answer. answer
        ≡ fine_text (journal_text 2 journal.now.entries journal.now.tail)) }
{
    let mut text = Bytes::new(alloc);
    print(
        alloc,
        journal.entries.as_slice(),
        2,
        &journal.tail,
        &mut text,
    )?;
    Ok(Answer::fine(text))
}
