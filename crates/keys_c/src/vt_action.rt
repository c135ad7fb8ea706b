ghost use Rattle.std.specs.Prelude.{◌≡◌};
ghost use Rattle.keys_c.specs.Actions.{c_action};

use key_syms::Action;

/// `VT_ACTION_NO_TABLE`: the kind if there is no such table.
const NO_TABLE: u16 = 14;

/// The action of a key: a kind and a value (docs/reference/keys.md, "Actions").
#[repr(C)]
#[derive(Clone, Copy, Debug, PartialEq, Eq)]
pub(crate) struct VtAction {
    pub kind: u16,
    pub value: u16,
}

impl VtAction {
    /// The entry of a table as C sees it.
    pub(crate) fn of(entry: Option<Action>) -> VtAction
        ensures { result ≡ c_action entry }
    {
        match entry {
            None => VtAction {
                kind: NO_TABLE,
                value: 0,
            },
            Some(action) => VtAction {
                kind: u16::from(action.kind),
                value: action.value,
            },
        }
    }
}
