ghost use Rattle.std.specs.Prelude.{◌≡◌};
ghost use Rattle.sig_hooks.specs.Hooks.{act_of};

use crate::{Act, Handler, HookTable};
use std::marker::Model;
use vt_base::Signal;

/// A stored closure with the table of its answers for each of the 64 signals. Contracts see the table.
#[derive(Drop)]
pub struct Hook<F: Handler> {
    f: F,
    table: HookTable,
}

impl<F: Handler> Model for Hook<F> {
    ghost use Rattle.std.specs.Prelude.{List};
    ghost use Rattle.sig_hooks.specs.declared.act.Act.{Act};

    ghost Value = { List Act };

    ghost view = { λ h. h.table };

    ghost invariant = { λ h. F.answers h.f h.table };
}

impl<F: Handler> Hook<F> {
    /// A hook from a closure that may be called on each signal and returns the table's act.
    pub fn new(f: F, table: HookTable) -> Hook<F>
        requires { F.answers f table }
        ensures { result ≡ table }
    {
        Hook { f, table }
    }

    /// The act that the closure returns.
    pub fn ask(&self, s: Signal) -> Act
        ensures { result ≡ act_of self.now s }
    {
        self.f.answer(&self.table, s)
    }

    /// The table of its acts.
    pub fn table(&self) -> &HookTable
        ensures { result.now ≡ self.now }
    {
        &self.table
    }
}
