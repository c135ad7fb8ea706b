//! The lines of the output: what each scan byte sends, or why the keymap is refused.
use key_machine::KeyOut;
use key_text::KeyFault;
use std::alloc::Global;
use vt_base::{Bytes, NoMemory};
use vt_journal::add_hex;

/// Adds the line of a scan byte.
pub(crate) fn add_line(
    alloc: Global,
    lines: &mut Bytes,
    scan: u8,
    out: &KeyOut,
) -> Result<(), NoMemory> {
    add_hex(alloc, lines, &[scan])?;
    match out {
        KeyOut::Bytes(bytes) => {
            lines.add(alloc, b" sends ")?;
            add_hex(alloc, lines, bytes.as_slice())?;
        }
        KeyOut::Switch(n) => {
            lines.add(alloc, b" asks for console ")?;
            lines.add_decimal(alloc, u64::from(*n))?;
        }
        KeyOut::Nothing => {}
        _ => lines.add(alloc, b" asks for something else")?,
    }
    lines.add(alloc, b"\n")
}

/// Adds the place and the kind of the keymap's fault.
pub(crate) fn add_refusal(
    alloc: Global,
    lines: &mut Bytes,
    fault: &KeyFault,
) -> Result<(), NoMemory> {
    lines.add(alloc, b"fault ")?;
    lines.add_decimal(alloc, u64::from(fault.kind))?;
    lines.add(alloc, b" in line ")?;
    lines.add_decimal(alloc, u64::from(fault.line))?;
    lines.add(alloc, b"\n")
}
