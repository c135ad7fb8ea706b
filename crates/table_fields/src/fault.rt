ghost use Rattle.std.specs.Prelude.{◌≡◌};
ghost use Rattle.table_fields.specs.Checked.{fault};

/// The first fault of a TOML table, or of a text in it: its kind and its place. The place in a table
/// is the part (0 for the table itself) and the number of a key or an item, from 1. The place in a
/// keymap is a line and a column.
#[derive(Clone, Copy, Debug, PartialEq, Eq)]
pub struct TableFault {
    pub kind: u16,
    pub part: u32,
    pub item: u32,
}

/// Why a table wasn't read.
#[derive(Clone, Copy, Debug, PartialEq, Eq)]
pub enum TableError {
    /// It has a fault.
    Fault(TableFault),
    /// Memory ran out.
    NoMemory,
}

/// The fault of this kind at a place.
pub(crate) fn fault(kind: u16, part: u32, item: u32) -> TableFault
    ensures { result ≡ fault kind part item }
{
    TableFault { kind, part, item }
}

/// The error of a fault of this kind.
pub fn refused(kind: u16, part: u32, item: u32) -> TableError
    ensures { result ≡ TableError.Fault (fault kind part item) }
{
    TableError::Fault(fault(kind, part, item))
}
