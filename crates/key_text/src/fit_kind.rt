ghost use Rattle.std.specs.Prelude.{◌≡◌, IsTrue};
ghost use Rattle.key_text.specs.KeymapLine.{is_fit};
ghost use Rattle.key_text.specs.View.{meaning_of};

use crate::line_kind::LineKind;

/// A kind of line whose numbers and bytes are within the limits of a keymap.
#[derive(Drop)]
pub(crate) struct FitKind {
    pub kind: LineKind,
    ghost fit: { IsTrue (is_fit (meaning_of kind)) },
}

impl FitKind {
    pub(crate) fn of(kind: LineKind) -> FitKind
        requires { IsTrue (is_fit (meaning_of kind)) }
        ensures { result.kind ≡ kind }
    {
        FitKind { kind }
    }
}
