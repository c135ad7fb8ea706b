//! Reads and sets the actions of keys, and the keycodes of scan numbers.
ghost use Rattle.std.specs.Prelude.{◌≡◌, ◌&&◌, nat_le, slice_index};
ghost use Rattle.c_calls.specs.Codes.{NOTHING, OK, RANGE};
ghost use Rattle.key_syms.specs.Act.{is_action};
ghost use Rattle.key_tables.specs.Tables.{entry_of, exists_in};
ghost use Rattle.keys_c.specs.Actions.{c_action};
ghost use Rattle.keys_c.specs.Answers.{Changes, ChangesIf, Reads};
ghost use Rattle.keys_c.specs.KeyboardView.{with_action, with_keycode};
ghost use Rattle.keys_c.specs.Loans.{IsSameLoan};
ghost use Rattle.keys_c.specs.Scanning.{is_keycode};
ghost use Rattle.scan_codes.specs.Groups.{is_scan};

use crate::handle::KeysHandle;
use crate::loan::KeysLoan;
use crate::vt_action::VtAction;
use c_calls::{change, code, read};
use std::alloc::Global;

/// Writes the action of a key in a table (ioctl_console(2), KDGKBENT).
#[unsafe(no_mangle)]
pub extern "C" fn vt_lent_keys_entry(
    loan: &mut KeysLoan,
    table: u32,
    keycode: u32,
    action: &mut VtAction,
) -> u8
    ensures same { IsSameLoan loan.old loan.new }
    ensures entry { Reads loan.old.value (nat_le table 255 && is_keycode keycode)
        (λ k. c_action (entry_of k.tables table keycode)) result action.old action.new }
{
    read!(loan, keyboard => {
        if table <= 255 && is_keycode(keycode) {
            *action = VtAction::of(keyboard.entry(table as u8, keycode as u8));
            code::OK
        } else {
            code::RANGE
        }
    })
}

/// Sets the action of a key in a table that exists (ioctl_console(2), KDSKBENT).
#[unsafe(no_mangle)]
pub extern "C" fn vt_keys_set_entry(
    h: &mut KeysHandle,
    alloc: Global,
    table: u32,
    keycode: u32,
    action: &VtAction,
) -> u8
    ensures { ChangesIf h.old.value
        (λ k. nat_le table 255 && (is_keycode keycode
        && (exists_in k.tables table && is_action action.now.kind action.now.value)))
        (λ k. with_action k table keycode action.now.kind action.now.value) result h.new.value }
{
    change!(h, alloc, keyboard => {
        if table <= 255
            && is_keycode(keycode)
            && keyboard.set_entry(table as u8, keycode as u8, action.kind, action.value)
        {
            code::OK
        } else {
            code::RANGE
        }
    })
}

/// Writes the keycode of a scan number, or 0 (ioctl_console(2), KDGETKEYCODE).
#[unsafe(no_mangle)]
pub extern "C" fn vt_lent_keys_keycode(loan: &mut KeysLoan, scan: u32, keycode: &mut u32) -> u8
    ensures same { IsSameLoan loan.old loan.new }
    ensures keycode { Reads loan.old.value (nat_le scan 255 && is_scan scan)
        (λ k. slice_index k.scanner.codes scan) result keycode.old keycode.new }
{
    read!(loan, keyboard => {
        if scan <= 255 {
            match keyboard.keycode(scan as u8) {
                None => code::RANGE,
                Some(found) => {
                    *keycode = u32::from(found);
                    code::OK
                }
            }
        } else {
            code::RANGE
        }
    })
}

/// Sets the keycode of a scan number, or 0 for none (ioctl_console(2), KDSETKEYCODE).
#[unsafe(no_mangle)]
pub extern "C" fn vt_keys_set_keycode(
    h: &mut KeysHandle,
    alloc: Global,
    scan: u32,
    keycode: u32,
) -> u8
    ensures { Changes h.old.value (nat_le scan 255 && (nat_le keycode 255 && is_scan scan))
        (λ k. with_keycode k scan keycode) result h.new.value }
{
    change!(h, alloc, keyboard => {
        if scan <= 255 && keycode <= 255 && keyboard.set_keycode(scan as u8, keycode as u8) {
            code::OK
        } else {
            code::RANGE
        }
    })
}

/// Whether key tables have an entry for the keycode.
pub(crate) fn is_keycode(keycode: u32) -> bool
    ensures { result ≡ is_keycode keycode }
{
    1 <= keycode && keycode <= 255
}
