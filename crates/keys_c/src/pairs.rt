//! Reads and sets the pairs of compose keys.
ghost use Rattle.std.specs.Prelude.{◌≡◌, ◌⊎◌, [], IfNone, IfOk, IfSome, is_some, unwrap_or};
ghost use Rattle.c_calls.specs.Codes.{NOTHING, NO_MEMORY, OK, RANGE};
ghost use Rattle.c_calls.specs.Text.{Hands, room_of};
ghost use Rattle.call_bytes.specs.Pairs.{pairs_in, pairs_text};
ghost use Rattle.keys_c.specs.Answers.{Changes};
ghost use Rattle.keys_c.specs.KeyboardView.{with_accents};
ghost use Rattle.keys_c.specs.Loans.{IsSameLoan};

use crate::handle::KeysHandle;
use crate::keymap_keyboard::KeymapKeyboard;
use crate::loan::KeysLoan;
use c_calls::{change, code, hand_over, read};
use call_bytes::{add_pairs, read_pairs};
use std::alloc::Global;
use vt_base::{Bytes, NoMemory};

/// The bytes of a pair.
const PAIR_BYTES: usize = 12;

/// Writes the bytes of the pairs, and how many bytes there are (ioctl_console(2), KDGKBDIACRUC).
#[unsafe(no_mangle)]
pub extern "C" fn vt_lent_keys_pairs(
    loan: &mut KeysLoan,
    alloc: Global,
    room: &mut [u8],
    length: &mut usize,
) -> u8
    ensures same { IsSameLoan loan.old loan.new }
    ensures nothing { IfNone loan.old.value ((result ≡ NOTHING)
        × (room_of room.new length.new ≡ room_of room.old length.old)) }
    ensures pairs { IfSome loan.old.value (λ k.
        Hands (pairs_text k.tables.pairs) result (room_of room.old length.old) (room_of room.new length.new)
        ⊎ ((result ≡ NO_MEMORY) × (room_of room.new length.new ≡ room_of room.old length.old))) }
{
    read!(loan, keyboard => match keyboard.pair_bytes(alloc) {
        Err(_) => code::NO_MEMORY,
        Ok(bytes) => hand_over(bytes.as_slice(), room, length),
    })
}

/// Sets the pairs, as their bytes (ioctl_console(2), KDSKBDIACRUC).
#[unsafe(no_mangle)]
pub extern "C" fn vt_nonnull_keys_set_pairs(h: &mut KeysHandle, alloc: Global, bytes: &[u8]) -> u8
    ensures { Changes h.old.value (is_some (pairs_in bytes.now))
        (λ k. with_accents k (unwrap_or (pairs_in bytes.now) [])) result h.new.value }
{
    change!(h, alloc, keyboard => match read_pairs(bytes) {
        None => code::RANGE,
        Some(pairs) => {
            keyboard.set_pairs(pairs.as_slice());
            code::OK
        }
    })
}

impl KeymapKeyboard {
    // The bytes of the pairs.
    fn pair_bytes(&self, alloc: Global) -> Result<Bytes, NoMemory>
        ensures { IfOk result (λ bytes. bytes.bytes ≡ pairs_text self.now.tables.pairs) }
    {
        let pairs = self.pairs();
        let mut bytes = Bytes::with_room(alloc, PAIR_BYTES * pairs.len())?;
        add_pairs(pairs, &mut bytes);
        Ok(bytes)
    }
}
