//! The modes of a screen that C passes. 0 is off.
ghost use Rattle.std.specs.Prelude.{◌≡◌};
ghost use Rattle.keys_c.specs.Modes.{is_modes, modes_of};

use c_calls::VtModes;
use key_machine::KeyModes;

/// The modes as keys take them.
pub(crate) fn modes_of(modes: &VtModes) -> KeyModes
    ensures { result ≡ modes_of modes.now }
{
    KeyModes {
        cursor: modes.cursor_keys != 0,
        keypad: modes.keypad != 0,
        repeat: modes.repeat != 0,
        newline: modes.newline_mode != 0,
    }
}

/// Whether the spare bytes are 0.
pub(crate) fn is_modes(modes: &VtModes) -> bool
    ensures { result ≡ is_modes modes.now }
{
    modes.spare == [0; 4]
}
