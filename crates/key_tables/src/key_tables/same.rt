//! Whether two sets of tables, strings and pairs are the same.
ghost use Rattle.std.specs.Prelude.{◌≡◌, IsTrue};

use crate::KeyTables;
use crate::func_text::FuncText;
use key_syms::Pair;

impl KeyTables {
    /// Whether both are the same. Nothing is proved of the answer `false`.
    pub fn same(&self, other: &KeyTables) -> bool
        ensures { IsTrue result → self.now ≡ other.now }
    {
        self.maps.same(&other.maps)
            && are_same_texts(self.funcs.as_slice(), other.funcs.as_slice())
            && are_same_pairs(self.pairs.as_slice(), other.pairs.as_slice())
    }
}

// Whether all strings are the same.
fn are_same_texts(texts: &[FuncText], others: &[FuncText]) -> bool
    ensures { IsTrue result → texts.now ≡ others.now }
{
    if texts.len() != others.len() {
        return false;
    }
    for i in 0..texts.len() {
        if !are_same_bytes(texts[i].as_slice(), others[i].as_slice()) {
            return false;
        }
    }
    true
}

// Whether all bytes are the same.
fn are_same_bytes(bytes: &[u8], others: &[u8]) -> bool
    ensures { IsTrue result → bytes.now ≡ others.now }
{
    bytes == others
}

// Whether all pairs are the same.
fn are_same_pairs(pairs: &[Pair], others: &[Pair]) -> bool
    ensures { IsTrue result → pairs.now ≡ others.now }
{
    if pairs.len() != others.len() {
        return false;
    }
    for i in 0..pairs.len() {
        if pairs[i] != others[i] {
            return false;
        }
    }
    true
}
