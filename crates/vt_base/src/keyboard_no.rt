ghost use Rattle.std.specs.Prelude.{◌≡◌, ◌<◌};

use std::marker::Model;

/// The number of a keyboard, from 0 to 3.
#[derive(Clone, Copy, Debug, PartialEq, Eq)]
pub struct KeyboardNo {
    n: u8,
}

impl Model for KeyboardNo {
    ghost use Rattle.std.specs.Prelude.{ℕ, ◌<◌};

    ghost Value = { ℕ };

    ghost view = { λ k. k.n };

    ghost invariant = { λ k. k.n < 4 };

    ghost inverse = { λ n. record { n = n } };
}

impl KeyboardNo {
    /// The keyboard of a number that is known to be in the range.
    pub fn numbered(n: u8) -> KeyboardNo
        requires { n < 4 }
        ensures { result ≡ n }
    {
        KeyboardNo { n }
    }

    /// The number.
    pub fn get(self) -> u8
        ensures same { result ≡ self }
        ensures high { result < 4 }
    {
        self.n
    }
}
