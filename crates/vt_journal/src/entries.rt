ghost use Rattle.std.specs.Prelude.{◌≡◌, ◌≤◌, length, vec_len};

use std::marker::Model;
use vt_events::Entry;

/// The entries of a journal, at most 1,000,000.
#[derive(Debug, Drop)]
pub struct Entries {
    items: Vec<Entry>,
}

impl Model for Entries {
    ghost use Rattle.std.specs.Prelude.{List, ◌≤◌, vec_len};
    ghost use Rattle.vt_events.specs.declared.entry.Entry.{Entry};

    ghost Value = { List Entry };

    ghost view = { λ e. e.items.items };

    ghost invariant = { λ e. vec_len e.items ≤ 1_000_000 };
}

impl Entries {
    /// A list of these entries.
    pub fn new(items: Vec<Entry>) -> Entries
        requires { vec_len items ≤ 1_000_000 }
        ensures { result ≡ items.items }
    {
        Entries { items }
    }

    /// The entries in order.
    pub fn as_slice(&self) -> &[Entry]
        ensures same { result.now ≡ self.now }
        ensures most { length result.now ≤ 1_000_000 }
    {
        self.items.as_slice()
    }
}
