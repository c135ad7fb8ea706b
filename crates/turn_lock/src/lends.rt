//! `Held::value`: the value under the lock, to read and to write. It has a file of its own: its clause names the row of
//! `Held`, which the file that declares `Held` can't import.
ghost use Rattle.std.specs.Prelude.{◌≡◌, []};
ghost use types.Logic.{sem};
ghost use denote.Follow.{follows};
ghost use mir.Syntax.{named};
ghost use Rattle.turn_lock.specs.contracts.held.Held.{the_row};
ghost use Rattle.turn_lock.specs.Words.{held_with, value_of};

use crate::held::Held;
use crate::kept::Kept;

impl<'a, K: Kept> Held<'a, K> {
    /// The value, to read and to write.
    pub fn value(&mut self) -> &mut K
        ensures* writes_back { sem 𝓛 (follows
            (the_row (record { mir = named 0; lft = [] }) K.row K.What.row K.Stop.row ⟦<K as Kept>⟧)
            K.row self.entry.ghost_name result.ghost_name (held_with self.old)) }
        ensures value { result.now ≡ value_of self.old }
    {
        &mut self.value
    }
}
