ghost use Rattle.std.specs.Prelude.{◌≡◌};
ghost use Rattle.sig_hooks.specs.Hooks.{act_of};

use sig_hooks::{Act, Handler, Hook, HookTable};
use vt_base::Signal;

/// A source of acts for signals: a table, or a hook that answers by one.
pub(crate) trait Asks {
    ghost use Rattle.std.specs.Prelude.{List};
    ghost use Rattle.sig_hooks.specs.declared.act.Act.{Act};

    // The acts that it answers.
    ghost acts: { Self → List Act };

    /// The act of the signal.
    fn ask_for(&self, s: Signal) -> Act
        ensures { result ≡ act_of (acts self.now) s };
}

impl Asks for HookTable {
    ghost acts = { λ table. table };

    fn ask_for(&self, s: Signal) -> Act {
        self.act(s)
    }
}

impl<F: Handler> Asks for Hook<F> {
    ghost acts = { λ hook. hook };

    fn ask_for(&self, s: Signal) -> Act {
        self.ask(s)
    }
}
