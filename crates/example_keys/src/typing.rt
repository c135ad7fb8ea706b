//! Scan bytes typed on one console.
use crate::telling::add_line;
use key_machine::{KbState, KeyOut, Keyboard, START_MODES};
use key_tables::KeyTables;
use scan_codes::Scanner;
use std::alloc::Global;
use vt_base::{Bytes, NoMemory};

/// The keys that are typed: a, Shift and a, Control and c, F1, an accent and e, Alt and F2, as a PC keyboard
/// sends them.
const SCANS: [u8; 24] = [
    0x1E, 0x9E, 0x2A, 0x1E, 0x9E, 0xAA, 0x1D, 0x2E, 0xAE, 0x9D, 0x3B, 0xBB, 0x28, 0xA8, 0x12, 0x92,
    0x38, 0x3C, 0xBC, 0xB8, 0xE0, 0x1C, 0xE0, 0x9C,
];

/// Adds a line for each scan byte: the byte alone if no key ends with it. A keyboard has its own scanner; a
/// console has its own key state, and the modes of its screen.
pub(crate) fn add_typed(
    alloc: Global,
    lines: &mut Bytes,
    tables: &KeyTables,
) -> Result<(), NoMemory> {
    let mut scanner = Scanner::start();
    let mut keyboard = Keyboard::start();
    let mut state = KbState::start();
    for scan in SCANS {
        let out = match scanner.push(scan) {
            Some(event) => keyboard.key(0, event, tables, &mut state, START_MODES),
            None => KeyOut::Nothing,
        };
        add_line(alloc, lines, scan, &out)?;
    }
    Ok(())
}
