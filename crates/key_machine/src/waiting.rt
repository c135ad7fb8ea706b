/// The accent or Compose that waits for a character.
#[derive(Clone, Copy, Debug, PartialEq, Eq)]
pub(crate) struct Waiting {
    /// An accent.
    pub(crate) accent: Option<u16>,
    /// Compose was pressed: the next character waits as accent.
    pub(crate) composing: bool,
}

impl Waiting {
    ghost use Rattle.std.specs.Prelude.{◌≡◌};
    ghost use Rattle.key_machine.specs.Compose.{waits};
    ghost use Rattle.key_machine.specs.Keys.{nothing_waits};

    /// Nothing waits.
    pub(crate) fn nothing() -> Waiting
        ensures { result ≡ nothing_waits }
    {
        Waiting {
            accent: None,
            composing: false,
        }
    }

    /// An accent alone.
    pub(crate) fn accent(code: u16) -> Waiting
        ensures { result ≡ waits code }
    {
        Waiting {
            accent: Some(code),
            composing: false,
        }
    }
}
