//! Whether two tables are the same.
ghost use Rattle.std.specs.Prelude.{◌≡◌, IsTrue};

use crate::table::Table;
use key_syms::Action;

impl Table {
    /// Whether both are the same. Nothing is proved of the answer `false`.
    pub(crate) fn same(&self, other: &Table) -> bool
        ensures { IsTrue result → self.now ≡ other.now }
    {
        are_same_actions(self.entries.as_slice(), other.entries.as_slice())
    }
}

// Whether all actions are the same.
fn are_same_actions(actions: &[Action], others: &[Action]) -> bool
    ensures { IsTrue result → actions.now ≡ others.now }
{
    if actions.len() != others.len() {
        return false;
    }
    for i in 0..actions.len() {
        if actions[i] != others[i] {
            return false;
        }
    }
    true
}
