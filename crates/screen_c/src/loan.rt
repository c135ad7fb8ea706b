ghost use Rattle.std.specs.Prelude.{◌≡◌, ℕ, Option, None};
ghost use Rattle.screen_c.specs.Held.{OwnedScreenView};

use crate::lent_screen::LentScreen;
use std::marker::Model;
use std::mem;

/// A screen as a call gets it that only reads: a loan, in a struct of one pointer. Many loans of a screen may be out at
/// once, in many threads; each goes to one call at a time, and gives its part of the screen back at the call's end.
/// In contracts `value` is the screen, or `None`.
#[repr(C)]
#[derive(Drop)]
pub struct ScreenLoan {
    pub(crate) at: *const u8,
    pub ghost value: { Option OwnedScreenView },
    pub ghost life: { ℕ },
    pub ghost part: { ℕ },
}

impl Model for ScreenLoan {
    ghost use Rattle.raw_box.specs.Contents.{loan};
    ghost use Rattle.screen_c.specs.contracts.owned_screen.OwnedScreen.{the_row as screen_row};

    ghost also_owns = { λ h. loan screen_row h.at h.value h.life h.part };
}

impl ScreenLoan {
    // A loan of nothing.
    fn none() -> ScreenLoan
        ensures { result.value ≡ None }
    {
        ScreenLoan {
            at: std::ptr::null(),
        }
    }

    // The loan, to be read.
    fn open(self) -> LentScreen
        ensures { (result.value ≡ self.value) × (result.life ≡ self.life) × (result.part ≡ self.part) }
    {
        let ScreenLoan { at } = self;
        LentScreen { at }
    }

    /// Takes the loan, and leaves one of nothing.
    pub(crate) fn take(&mut self) -> LentScreen
        ensures old { (result.value ≡ self.old.value) × (result.life ≡ self.old.life) × (result.part ≡ self.old.part) }
        ensures new { self.new.value ≡ None }
    {
        mem::replace(self, ScreenLoan::none()).open()
    }

    /// Puts a loan in the place of one of nothing.
    pub(crate) fn put(&mut self, lent: LentScreen)
        requires { self.old.value ≡ None }
        ensures { (self.new.value ≡ lent.value) × (self.new.life ≡ lent.life) × (self.new.part ≡ lent.part) }
    {
        *self = lent.close();
    }
}

unsafe impl Send for ScreenLoan {}
