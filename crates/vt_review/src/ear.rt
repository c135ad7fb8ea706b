ghost use Rattle.std.specs.Prelude.{◌≡◌, ◌<◌};
ghost use Rattle.vt_review.specs.Ears.{says};

use crate::{EarTable, Listener, Notice};
use std::marker::Model;

/// A stored closure with the table of the notices that it hears. Contracts see the table.
#[derive(Drop)]
pub struct Ear<F: Listener> {
    f: F,
    table: EarTable,
}

impl<F: Listener> Model for Ear<F> {
    ghost use Rattle.vt_review.specs.declared.ear_table.EarTable.{EarTable};

    ghost Value = { EarTable };

    ghost view = { λ e. e.table };

    ghost invariant = { λ e. F.hears e.f e.table };
}

impl<F: Listener> Ear<F> {
    /// An ear from a closure that may be called on each notice and hears those of the table.
    pub fn new(f: F, table: EarTable) -> Ear<F>
        requires { F.hears f table }
        ensures { result ≡ table }
    {
        Ear { f, table }
    }

    /// Asks the closure whether it hears the notice.
    pub fn ask(&self, n: Notice) -> bool
        requires { n.kind < 3 }
        ensures { result ≡ says self.now n }
    {
        self.f.hear(&self.table, n)
    }

    /// The table of the notices that it hears.
    pub fn table(&self) -> &EarTable
        ensures { result.now ≡ self.now }
    {
        &self.table
    }
}
