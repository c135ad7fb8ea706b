ghost use Rattle.std.specs.Prelude.{◌≡◌};
ghost use Rattle.sig_hooks.specs.Hooks.{Answers, act_of};

use crate::{Act, HookTable};
use vt_base::Signal;

/// A hook: every closure from a signal to an act is one.
pub trait Handler: Drop {
    ghost use Rattle.std.specs.Prelude.{List};
    ghost use Rattle.sig_hooks.specs.declared.act.Act.{Act};

    // The closure may be called on each signal, and returns the table's act.
    ghost answers: { Self → List Act → Type 0 };

    /// The act of the signal.
    fn answer(&self, table: &HookTable, s: Signal) -> Act
        requires { answers self.now table.now }
        ensures { result ≡ act_of table.now s };
}

impl<F: Fn(Signal) -> Act> Handler for F {
    ghost answers = { λ f table. Answers (λ n. F.pre f n) (λ n a. F.post f n a) table };

    fn answer(&self, _table: &HookTable, s: Signal) -> Act {
        s.stays_in_range();
        self(s)
    }
}
