ghost use Rattle.std.specs.Prelude.{◌≡◌, ◌≢◌, ℕ, MatchOption, Option, None, Some};
ghost use Rattle.std.specs.Option.{is_none};
ghost use Rattle.screen_c.specs.Held.{OwnedScreenView};

use crate::{OwnedScreen, ScreenLoan};
use std::marker::Model;

/// A loan while a call reads it.
pub(crate) struct LentScreen {
    pub(crate) at: *const u8,
    pub ghost value: { Option OwnedScreenView },
    pub ghost life: { ℕ },
    pub ghost part: { ℕ },
}

impl Model for LentScreen {
    ghost use Rattle.raw_box.specs.Contents.{contents_lent, loan};
    ghost use Rattle.screen_c.specs.contracts.owned_screen.OwnedScreen.{the_row as screen_row};

    ghost also_owns = { λ h. loan screen_row h.at h.value h.life h.part };

    ghost also_shares = { λ h _ κ. contents_lent screen_row h.at h.value κ };
}

impl LentScreen {
    /// The loan again.
    pub(crate) fn close(self) -> ScreenLoan
        ensures { (result.value ≡ self.value) × (result.life ≡ self.life) × (result.part ≡ self.part) }
    {
        let LentScreen { at } = self;
        ScreenLoan { at }
    }

    /// The screen, if one is lent.
    pub(crate) fn get(&self) -> Option<&OwnedScreen>
        ensures { MatchOption result (self.now.value ≡ None) (λ screen. self.now.value ≡ Some screen.now) }
    {
        if self.is_empty() {
            None
        } else {
            Some(self.screen())
        }
    }

    // Whether no screen is lent.
    fn is_empty(&self) -> bool
        ensures { result ≡ is_none self.now.value }
    {
        self.at.is_null()
    }

    // The screen that is lent.
    fn screen(&self) -> &OwnedScreen
        requires { self.now.value ≢ None }
        ensures { self.now.value ≡ Some result.now }
    {
        unsafe { &*(self.at as *const OwnedScreen) }
    }
}
