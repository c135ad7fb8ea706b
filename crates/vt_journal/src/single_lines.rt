//! The lines of a journal, one by one.
ghost use Rattle.std.specs.Prelude.{◌≡◌, ◌≤◌, OnOk};
ghost use Rattle.vt_base.specs.Bytes.{Adds};
ghost use Rattle.vt_base.specs.Limits.{processes};
ghost use Rattle.vt_events.specs.Plain.{plain_entry};
ghost use Rattle.vt_journal.specs.Callers.{IsVersion};
ghost use Rattle.vt_journal.specs.Journal.{entry_words, first_words, line_text, tail_words};
ghost use Rattle.vt_journal.specs.Says.{IsFitEntry, IsFitTail};

use crate::Tail;
use crate::printing::{add_entry, add_first, add_tail};
use std::alloc::Global;
use vt_base::{Bytes, NoMemory};
use vt_events::Entry;

/// Adds the first line of a journal in this version. The lines that the calls of this module add make
/// the text of [`print`](crate::print), as [`lines_make_the_text`](crate::lines_make_the_text) states.
pub fn print_first(alloc: Global, version: u8, rest: &mut Bytes) -> Result<(), NoMemory>
    requires { IsVersion version }
    ensures { Adds (line_text (first_words version)) rest.old rest.new result }
{
    let mut line = Bytes::new(alloc);
    add_first(alloc, &mut line, version)?;
    rest.add(alloc, line.as_slice())
}

/// Adds the line of an entry in this version. It can be read again.
pub fn print_entry(
    alloc: Global,
    entry: &Entry,
    version: u8,
    rest: &mut Bytes,
) -> Result<(), NoMemory>
    requires version { IsVersion version }
    requires caller { version ≡ 1 → entry.now.caller ≤ processes }
    ensures adds { Adds (line_text (entry_words version entry.now)) rest.old rest.new result }
    ensures fit { OnOk result (IsFitEntry version (plain_entry entry.now)) }
{
    let mut line = Bytes::new(alloc);
    add_entry(alloc, &mut line, version, entry)?;
    rest.add(alloc, line.as_slice())
}

/// Adds the last line of a journal. It can be read again.
pub fn print_tail(alloc: Global, end: &Tail, rest: &mut Bytes) -> Result<(), NoMemory>
    ensures adds { Adds (line_text (tail_words end.now)) rest.old rest.new result }
    ensures fit { OnOk result (IsFitTail end.now) }
{
    let mut line = Bytes::new(alloc);
    add_tail(alloc, &mut line, end)?;
    rest.add(alloc, line.as_slice())
}
