ghost use Rattle.std.specs.Prelude.{◌≡◌};
ghost use Rattle.vt_review.specs.Ears.{is_kind, says};

use crate::Notice;
use vt_base::is_among;

/// The notices that a listener hears: those of some kinds, of some consoles.
#[derive(Clone, Copy, Debug, PartialEq, Eq)]
pub struct EarTable {
    /// Bit k stands for the notices of kind k.
    pub kinds: u8,
    /// Bit n stands for console n.
    pub consoles: u64,
}

impl EarTable {
    /// Whether it hears the notice.
    pub fn says(&self, n: Notice) -> bool
        ensures { result ≡ says self.now n }
    {
        is_kind(self.kinds, n.kind) && is_among(self.consoles, usize::from(n.console.get()))
    }
}

// Whether the kind is one of these.
fn is_kind(kinds: u8, kind: u8) -> bool
    ensures { result ≡ is_kind kinds kind }
{
    kind < 8 && is_among(u64::from(kinds), usize::from(kind))
}
