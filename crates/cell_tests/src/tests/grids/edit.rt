/// An edit of a grid. New cells are `-`, and texts have the start colours.
#[derive(Clone, Copy)]
pub(crate) enum Edit {
    /// A row, a column, and the code and the attribute byte of the cell that is put there.
    Put(u8, u8, u32, u8),
    /// Every cell.
    Fill,
    /// A row, a column, and the bytes that are drawn from there on: they split the characters that they cut.
    Bytes(u8, u8, &'static [u8]),
    /// A row, a column, and the codes that are drawn from there on.
    Codes(u8, u8, &'static [u32]),
    /// A row, and the column at which it is split.
    Part(u8, u8),
    /// The first and the last row of a region, and by how much it scrolls up.
    Up(u8, u8, u16),
    /// The first and the last row of a region, and by how much it scrolls down.
    Down(u8, u8, u16),
    /// A row, and the first and the last column that are erased.
    Erase(u8, u8, u8),
    /// A row, a column, and how many cells are inserted there.
    Insert(u8, u8, u16),
    /// A row, a column, and how many cells are deleted there.
    Delete(u8, u8, u16),
}
