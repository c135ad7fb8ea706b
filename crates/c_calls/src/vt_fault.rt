ghost use Rattle.std.specs.Prelude.{◌≡◌};

/// The first fault of a keymap text: its line and column, both from 1, and its kind (docs/reference/keys.md).
#[repr(C)]
#[derive(Clone, Copy, PartialEq, Eq)]
pub struct VtFault {
    pub line: u32,
    pub column: u32,
    pub kind: u32,
    /// Always 0: a later version may name it.
    pub spare: u32,
}

impl VtFault {
    /// The fault of this kind at this place.
    pub fn at(line: u32, column: u32, kind: u32) -> VtFault
        ensures { result ≡ record { line = line; column = column; kind = kind; spare = 0 } }
    {
        VtFault {
            line,
            column,
            kind,
            spare: 0,
        }
    }
}
