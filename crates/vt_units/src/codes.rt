ghost use Rattle.std.specs.Prelude.{◌≡◌, ◌<◌, ◌≤◌, [], ◌∷◌, ◌++◌, length};

use std::marker::Model;

/// The most characters of a list.
pub const MOST_CODES: usize = 64;

/// Characters by their code points, of which there are at most 64.
#[derive(Debug, Drop)]
pub struct Codes {
    codes: [u32; MOST_CODES],
    len: usize,
}

impl Model for Codes {
    ghost use Rattle.std.specs.Prelude.{◌≤◌, ℕ, List, take};

    ghost Value = { List ℕ };

    ghost view = { λ c. take c.len c.codes };

    ghost invariant = { λ c. c.len ≤ 64 };
}

impl Codes {
    /// An empty list.
    pub fn new() -> Codes
        ensures { result ≡ [] }
    {
        Codes {
            codes: [0; MOST_CODES],
            len: 0,
        }
    }

    /// Adds a character at the end.
    pub fn push(&mut self, code: u32)
        requires { length self.old < 64 }
        ensures { self.new ≡ self.old ++ code ∷ [] }
    {
        self.codes[self.len] = code;
        self.len += 1;
    }

    /// Removes all characters.
    pub fn clear(&mut self)
        ensures { self.new ≡ [] }
    {
        self.len = 0;
    }

    /// The number of characters.
    pub fn len(&self) -> usize
        ensures count { result ≡ length self.now }
        ensures bound { result ≤ 64 }
    {
        self.len
    }

    /// The characters in order.
    pub fn as_slice(&self) -> &[u32]
        ensures codes { result.now ≡ self.now }
        ensures bound { length self.now ≤ 64 }
    {
        &self.codes[..self.len]
    }
}

impl Default for Codes {
    ghost is_default = { λ x. x ≡ [] };

    fn default() -> Codes {
        Codes::new()
    }
}
