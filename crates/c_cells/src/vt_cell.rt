ghost use Rattle.std.specs.Prelude.{◌≡◌, ◌↔◌, IsTrue};
ghost use Rattle.c_cells.specs.Cells.{HasNoSpare, c_cell, cell_of};

use vt_cells::Cell;

/// A cell as C gets it and passes it: `struct vt_cell`.
#[repr(C)]
#[derive(Clone, Copy, PartialEq)]
pub struct VtCell {
    /// The code point, or that of a right half.
    pub code: u32,
    /// The attribute byte of a VGA text cell.
    pub attr: u8,
    /// Always 0: a later version may name it.
    pub spare: [u8; 3],
}

impl VtCell {
    /// The cell as C gets it.
    pub fn of(cell: Cell) -> VtCell
        ensures { result ≡ c_cell cell }
    {
        VtCell {
            code: cell.code,
            attr: cell.attr,
            spare: [0; 3],
        }
    }

    /// The cell that this struct stands for, whatever its spare bytes are.
    pub fn cell(&self) -> Cell
        ensures { result ≡ cell_of self.now }
    {
        Cell {
            code: self.code,
            attr: self.attr,
        }
    }

    /// Whether no spare byte is set.
    pub fn is_plain(&self) -> bool
        ensures { IsTrue result ↔ HasNoSpare self.now }
    {
        self.spare == [0; 3]
    }
}
