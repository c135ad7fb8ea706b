//! Whether the same keys are down on two sets of keyboards, and the copy of one into the other.
ghost use Rattle.std.specs.Prelude.{◌≡◌, IsTrue, length};

use crate::held::HeldKeys;
use key_syms::Action;

impl HeldKeys {
    /// Whether the same keys are down, with the same actions. Nothing is proved of the answer `false`.
    pub(crate) fn same(&self, other: &HeldKeys) -> bool
        ensures { IsTrue result → self.now ≡ other.now }
    {
        are_same_entries(&self.entries, &other.entries)
    }

    /// Becomes the other.
    pub(crate) fn copy_from(&mut self, other: &HeldKeys)
        ensures { self.new ≡ other.now }
    {
        self.entries.copy_from_slice(&other.entries);
        self.counts = other.counts;
    }
}

// Whether all entries are the same.
fn are_same_entries(entries: &[Option<Action>], others: &[Option<Action>]) -> bool
    requires { length entries.now ≡ length others.now }
    ensures { IsTrue result → entries.now ≡ others.now }
{
    for i in 0..entries.len() {
        if !is_same_entry(entries[i], others[i]) {
            return false;
        }
    }
    true
}

// Whether both entries are the same.
fn is_same_entry(entry: Option<Action>, other: Option<Action>) -> bool
    ensures { IsTrue result → entry ≡ other }
{
    match (entry, other) {
        (Some(one), Some(two)) => one == two,
        (None, None) => true,
        _ => false,
    }
}
