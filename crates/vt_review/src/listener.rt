ghost use Rattle.std.specs.Prelude.{◌≡◌, ◌<◌};
ghost use Rattle.vt_review.specs.Ears.{Answers, says};

use crate::{EarTable, Notice};

/// An ear: every closure from a notice to whether it is heard is one.
pub trait Listener: Drop {
    ghost use Rattle.vt_review.specs.declared.ear_table.EarTable.{EarTable};

    // It may be called on each notice, and hears those of the table.
    ghost hears: { Self → EarTable → Type 0 };

    /// Whether it hears the notice.
    fn hear(&self, table: &EarTable, n: Notice) -> bool
        requires by { hears self.now table.now }
        requires kind { n.kind < 3 }
        ensures { result ≡ says table.now n };
}

impl<F: Fn(Notice) -> bool> Listener for F {
    ghost hears = { λ f table. Answers (λ n. F.pre f n) (λ n b. F.post f n b) table };

    fn hear(&self, _table: &EarTable, n: Notice) -> bool {
        n.console.stays_in_range();
        self(n)
    }
}
