ghost use Rattle.std.specs.Prelude.{◌≤◌};

/// The rows and columns of a screen, each from 1 to 255.
#[derive(Clone, Copy, Debug, PartialEq, Eq)]
pub struct Size {
    pub rows: u8,
    pub cols: u8,
    pub ghost has_rows: { 1 ≤ rows },
    pub ghost has_cols: { 1 ≤ cols },
}
