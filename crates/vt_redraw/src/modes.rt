//! Modes, added to a text.
ghost use Rattle.std.specs.Prelude.{◌≡◌, ◌++◌, OnOk};
ghost use Rattle.vt_redraw.specs.Sequences.{coding_text, keypad_text, private_mode_text};
ghost use Rattle.vt_redraw.specs.State.{clearing_text, modes_text, setting_text};

use crate::sequences::{
    add_coding, add_keypad, add_mode, add_private_mode, add_sequence, add_shift,
};
use std::alloc::Global;
use vt_base::{Bytes, NoMemory};
use vt_screen::ScreenState;

/// Adds the modes that rows are drawn in.
pub(crate) fn add_setting(alloc: Global, text: &mut Bytes) -> Result<(), NoMemory>
    ensures { OnOk result (text.new.bytes ≡ text.old.bytes ++ setting_text) }
{
    add_coding(alloc, text, true)?;
    add_shift(alloc, text, 0)?;
    add_mode(alloc, text, 4, false)?;
    add_private_mode(alloc, text, 6, false)?;
    add_private_mode(alloc, text, 7, true)
}

/// Adds the text that makes every cell a space, white on black.
pub(crate) fn add_clearing(alloc: Global, text: &mut Bytes) -> Result<(), NoMemory>
    ensures { OnOk result (text.new.bytes ≡ text.old.bytes ++ clearing_text) }
{
    add_sequence(alloc, text, 37, &[40], b'm')?;
    add_sequence(alloc, text, 2, &[], b'J')
}

/// Adds the remaining modes, each on or off.
pub(crate) fn add_modes(alloc: Global, text: &mut Bytes, s: &ScreenState) -> Result<(), NoMemory>
    ensures { OnOk result (text.new.bytes ≡ text.old.bytes ++ modes_text s.now) }
{
    add_mode(alloc, text, 4, s.insert)?;
    add_mode(alloc, text, 20, s.newline)?;
    add_private_mode(alloc, text, 1, s.cursor)?;
    add_private_mode(alloc, text, 5, s.reverse)?;
    add_shown_modes(alloc, text, s)
}

// Adds the modes that `add_modes` doesn't add itself.
fn add_shown_modes(alloc: Global, text: &mut Bytes, s: &ScreenState) -> Result<(), NoMemory>
    ensures { OnOk result (text.new.bytes
        ≡ text.old.bytes
        ++ (private_mode_text 7 s.now.autowrap
        ++ (private_mode_text 8 s.now.repeat
        ++ (private_mode_text 25 s.now.visible
        ++ (keypad_text s.now.keypad
        ++ coding_text s.now.utf8))))) }
{
    add_private_mode(alloc, text, 7, s.autowrap)?;
    add_private_mode(alloc, text, 8, s.repeat)?;
    add_private_mode(alloc, text, 25, s.visible)?;
    add_keypad(alloc, text, s.keypad)?;
    add_coding(alloc, text, s.utf8)
}
