ghost use Rattle.std.specs.Prelude.{◌≡◌, ◌<◌, length};

use key_syms::Action;
use std::marker::Model;

/// The symbols of a key line: at least one.
#[derive(Drop)]
pub struct Syms {
    actions: Vec<Action>,
}

impl Model for Syms {
    ghost use Rattle.std.specs.Prelude.{List, ◌<◌, length};
    ghost use Rattle.key_syms.specs.Act.{Act};

    ghost Value = { List Act };

    ghost view = { λ s. s.actions.items };

    ghost invariant = { λ s. 0 < length s.actions.items };
}

impl Syms {
    /// A list of these symbols.
    pub(crate) fn of(actions: Vec<Action>) -> Syms
        requires { 0 < length actions.items }
        ensures { result ≡ actions.items }
    {
        Syms { actions }
    }

    /// The symbols in order.
    pub fn as_slice(&self) -> &[Action]
        ensures value { result.now ≡ self.now }
        ensures some { 0 < length result.now }
    {
        self.actions.as_slice()
    }
}
