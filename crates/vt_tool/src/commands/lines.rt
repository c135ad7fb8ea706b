//! Lines that several commands write.
ghost use Rattle.std.specs.Prelude.{◌≡◌, ◌++◌, OnOk};
ghost use Rattle.vt_tool.specs.Commands.Drill.{number_line};

use std::alloc::Global;
use vt_base::{Bytes, NoMemory};
use vt_journal::{add, add_next};

/// Adds a line of a name and a number.
pub(crate) fn add_number(
    alloc: Global,
    text: &mut Bytes,
    name: &[u8],
    n: u64,
) -> Result<(), NoMemory>
    ensures { OnOk result (text.new.bytes ≡ text.old.bytes ++ number_line name.now n) }
{
    add(alloc, text, name)?;
    add_next(alloc, text, n)?;
    add(alloc, text, b"\n")
}
