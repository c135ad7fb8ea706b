ghost use Rattle.std.specs.Prelude.{◌≡◌, ℕ, Option, None};
ghost use Rattle.keys_c.specs.KeyboardView.{KeyboardView};

use crate::lent_keyboard::LentKeyboard;
use std::marker::Model;
use std::mem;

/// A keyboard as a call gets it that only reads: a loan, in a struct of one pointer. Many loans of a keyboard may be
/// out at once, in many threads; each goes to one call at a time, and gives its part of the keyboard back at the call's
/// end. In contracts `value` is the keyboard, or `None`.
#[repr(C)]
#[derive(Drop)]
pub struct KeysLoan {
    pub(crate) at: *const u8,
    pub ghost value: { Option KeyboardView },
    pub ghost life: { ℕ },
    pub ghost part: { ℕ },
}

impl Model for KeysLoan {
    ghost use Rattle.raw_box.specs.Contents.{loan};
    ghost use Rattle.keys_c.specs.contracts.keymap_keyboard.KeymapKeyboard.{the_row as keyboard_row};

    ghost also_owns = { λ h. loan keyboard_row h.at h.value h.life h.part };
}

impl KeysLoan {
    // A loan of nothing.
    fn none() -> KeysLoan
        ensures { result.value ≡ None }
    {
        KeysLoan {
            at: std::ptr::null(),
        }
    }

    // The loan, to be read.
    fn open(self) -> LentKeyboard
        ensures { (result.value ≡ self.value) × (result.life ≡ self.life) × (result.part ≡ self.part) }
    {
        let KeysLoan { at } = self;
        LentKeyboard { at }
    }

    /// Takes the loan, and leaves one of nothing.
    pub(crate) fn take(&mut self) -> LentKeyboard
        ensures old { (result.value ≡ self.old.value) × (result.life ≡ self.old.life) × (result.part ≡ self.old.part) }
        ensures new { self.new.value ≡ None }
    {
        mem::replace(self, KeysLoan::none()).open()
    }

    /// Puts a loan in the place of one of nothing.
    pub(crate) fn put(&mut self, lent: LentKeyboard)
        requires { self.old.value ≡ None }
        ensures { (self.new.value ≡ lent.value) × (self.new.life ≡ lent.life) × (self.new.part ≡ lent.part) }
    {
        *self = lent.close();
    }
}

unsafe impl Send for KeysLoan {}
