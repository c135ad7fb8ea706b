ghost use Rattle.std.specs.Prelude.{◌≡◌, ◌<◌, ◌≤◌, [], ◌∷◌, ◌++◌, length};

use std::marker::Model;

/// The most parameters of a control sequence that count.
const MOST_PARAMS: usize = 16;

/// The parameters of a control sequence, of which at most 16 count (console_codes(4)).
#[derive(Debug, Drop)]
pub struct Params {
    numbers: [u16; MOST_PARAMS],
    len: usize,
}

impl Model for Params {
    ghost use Rattle.std.specs.Prelude.{◌≤◌, ℕ, List, take};

    ghost Value = { List ℕ };

    ghost view = { λ p. take p.len p.numbers };

    ghost invariant = { λ p. p.len ≤ 16 };
}

impl Params {
    /// An empty list.
    pub fn new() -> Params
        ensures { result ≡ [] }
    {
        Params {
            numbers: [0; MOST_PARAMS],
            len: 0,
        }
    }

    /// Adds a parameter at the end.
    pub fn push(&mut self, number: u16)
        requires { length self.old < 16 }
        ensures { self.new ≡ self.old ++ number ∷ [] }
    {
        self.numbers[self.len] = number;
        self.len += 1;
    }

    /// Removes all parameters.
    pub fn clear(&mut self)
        ensures { self.new ≡ [] }
    {
        self.len = 0;
    }

    /// The parameters in order.
    pub fn as_slice(&self) -> &[u16]
        ensures numbers { result.now ≡ self.now }
        ensures bound { length self.now ≤ 16 }
    {
        &self.numbers[..self.len]
    }
}

impl Default for Params {
    ghost is_default = { λ x. x ≡ [] };

    fn default() -> Params {
        Params::new()
    }
}
