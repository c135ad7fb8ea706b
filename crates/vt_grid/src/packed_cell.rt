ghost use Rattle.std.specs.Prelude.{◌≡◌, ◌↔◌, IsTrue};

use std::marker::Model;
use vt_cells::Cell;

/// A cell as a row keeps it: two 32-bit numbers, which are stored whole.
#[derive(Clone, Copy, Debug)]
pub(crate) struct PackedCell {
    code: u32,
    attr: u32,
}

impl Model for PackedCell {
    ghost use Rattle.std.specs.Prelude.{◌<◌};
    ghost use Rattle.vt_cells.specs.declared.cell.Cell.{Cell};

    ghost Value = { Cell };

    ghost view = { λ k. record { code = k.code; attr = k.attr } };

    ghost invariant = { λ k. k.attr < 256 };

    ghost inverse = { λ c. record { code = c.code; attr = c.attr } };
}

impl PackedCell {
    pub(crate) fn new(c: Cell) -> PackedCell
        ensures { result ≡ c }
    {
        PackedCell {
            code: c.code,
            attr: u32::from(c.attr),
        }
    }

    pub(crate) fn cell(self) -> Cell
        ensures { result ≡ self }
    {
        Cell {
            code: self.code,
            attr: self.attr as u8,
        }
    }

    // Without a branch, so that many cells are compared at once.
    #[inline(always)]
    pub(crate) fn is_same(self, other: PackedCell) -> bool
        ensures { IsTrue result ↔ (self ≡ other) }
    {
        (self.code == other.code) & (self.attr == other.attr)
    }
}
