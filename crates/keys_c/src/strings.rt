//! Reads and sets the strings of function keys.
ghost use Rattle.std.specs.Prelude.{◌≡◌, ◌≤◌, ◌&&◌, None, Some, true, length, nat_le, MatchOption};
ghost use Rattle.c_calls.specs.Codes.{NOTHING, NO_ROOM, OK, RANGE};
ghost use Rattle.c_calls.specs.Text.{room_of};
ghost use Rattle.keys_c.specs.Answers.{Changes};
ghost use Rattle.keys_c.specs.KeyboardView.{with_string};
ghost use Rattle.keys_c.specs.Loans.{IsSameLoan};
ghost use Rattle.keys_c.specs.Strings.{HandsString};

use crate::handle::KeysHandle;
use crate::loan::KeysLoan;
use c_calls::{change, code, hand_over, read};
use std::alloc::Global;

/// The greatest number of a function key.
const LAST_KEY: u32 = 255;

/// The most bytes of a string.
const MOST_BYTES: usize = 255;

/// Writes the string of a function key to `text`, and its length to `length` (ioctl_console(2), KDGKBSENT).
#[unsafe(no_mangle)]
pub extern "C" fn vt_lent_keys_string(
    loan: &mut KeysLoan,
    number: u32,
    text: &mut [u8],
    length: &mut usize,
) -> u8
    ensures same { IsSameLoan loan.old loan.new }
    ensures string { HandsString loan.old.value number result
        (room_of text.old length.old) (room_of text.new length.new) }
{
    read!(loan, keyboard => {
        if number <= LAST_KEY {
            hand_over(keyboard.string(number as u8), text, length)
        } else {
            code::RANGE
        }
    })
}

/// Sets the string of a function key (ioctl_console(2), KDSKBSENT).
#[unsafe(no_mangle)]
pub extern "C" fn vt_nonnull_keys_set_string(
    h: &mut KeysHandle,
    alloc: Global,
    number: u32,
    text: &[u8],
) -> u8
    ensures { Changes h.old.value (nat_le number 255 && nat_le (length text.now) 255)
        (λ k. with_string k number text.now) result h.new.value }
{
    change!(h, alloc, keyboard => {
        if number <= LAST_KEY && text.len() <= MOST_BYTES {
            keyboard.set_string(number as u8, text);
            code::OK
        } else {
            code::RANGE
        }
    })
}
