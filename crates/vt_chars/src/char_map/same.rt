//! Whether two character maps are the same, and the copy of one into the other.
ghost use Rattle.std.specs.Prelude.{◌≡◌, IsTrue};

use crate::CharMap;

impl CharMap {
    /// Whether both have the same user's table. Nothing is proved of the answer `false`.
    pub fn same(&self, other: &CharMap) -> bool
        ensures { IsTrue result → self.now ≡ other.now }
    {
        are_same_words(&self.user, &other.user)
    }

    /// Takes over the other's user's table.
    pub fn copy_from(&mut self, other: &CharMap)
        ensures { self.new ≡ other.now }
    {
        self.user = other.user;
    }
}

// Whether all code points are the same.
fn are_same_words(words: &[u16], others: &[u16]) -> bool
    ensures { IsTrue result → words.now ≡ others.now }
{
    if words.len() != others.len() {
        return false;
    }
    let mut same = true;
    for i in 0..words.len() {
        same = same & (words[i] == others[i]);
    }
    same
}
