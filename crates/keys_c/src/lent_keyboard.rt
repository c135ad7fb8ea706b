ghost use Rattle.std.specs.Prelude.{◌≡◌, ◌≢◌, ℕ, MatchOption, Option, None, Some};
ghost use Rattle.std.specs.Option.{is_none};
ghost use Rattle.keys_c.specs.KeyboardView.{KeyboardView};

use crate::keymap_keyboard::KeymapKeyboard;
use crate::loan::KeysLoan;
use std::marker::Model;

/// A loan while a call reads it.
pub(crate) struct LentKeyboard {
    pub(crate) at: *const u8,
    pub ghost value: { Option KeyboardView },
    pub ghost life: { ℕ },
    pub ghost part: { ℕ },
}

impl Model for LentKeyboard {
    ghost use Rattle.raw_box.specs.Contents.{contents_lent, loan};
    ghost use Rattle.keys_c.specs.contracts.keymap_keyboard.KeymapKeyboard.{the_row as keyboard_row};

    ghost also_owns = { λ h. loan keyboard_row h.at h.value h.life h.part };

    ghost also_shares = { λ h _ κ. contents_lent keyboard_row h.at h.value κ };
}

impl LentKeyboard {
    /// The loan again.
    pub(crate) fn close(self) -> KeysLoan
        ensures { (result.value ≡ self.value) × (result.life ≡ self.life) × (result.part ≡ self.part) }
    {
        let LentKeyboard { at } = self;
        KeysLoan { at }
    }

    /// The keyboard, if one is lent.
    pub(crate) fn get(&self) -> Option<&KeymapKeyboard>
        ensures { MatchOption result (self.now.value ≡ None) (λ keyboard. self.now.value ≡ Some keyboard.now) }
    {
        if self.is_empty() {
            None
        } else {
            Some(self.keyboard())
        }
    }

    // Whether no keyboard is lent.
    fn is_empty(&self) -> bool
        ensures { result ≡ is_none self.now.value }
    {
        self.at.is_null()
    }

    // The keyboard that is lent.
    fn keyboard(&self) -> &KeymapKeyboard
        requires { self.now.value ≢ None }
        ensures { self.now.value ≡ Some result.now }
    {
        unsafe { &*(self.at as *const KeymapKeyboard) }
    }
}
