ghost use Rattle.std.specs.Prelude.{◌≡◌, ◌+◌, ◌≤◌};
ghost use Rattle.vt_base.specs.Bytes.{Grew};
ghost use Rattle.vt_dump.specs.Dumps.{attribute, character};
ghost use Rattle.vt_dump.specs.Forms.{cell_bytes, most_bytes};

use vt_base::Bytes;
use vt_cells::{Cell, swapped};

/// How a dump writes a cell.
#[derive(Clone, Copy)]
pub(crate) enum Form {
    /// Its character in one byte.
    Character,
    /// Its character and its attribute, with the colours exchanged on a reversed screen.
    WithAttribute { reversed: bool },
    /// Its code point.
    Code,
}

/// Appends a cell's bytes. They must fit the room.
pub(crate) fn add_cell(form: Form, cell: Cell, out: &mut Bytes)
    requires { most_bytes form ≤ out.old.room }
    ensures grew { Grew (cell_bytes form cell) out.old out.new }
    ensures most { out.old.room ≤ out.new.room + most_bytes form }
{
    match form {
        Form::Character => out.append(&[character(cell)]),
        Form::WithAttribute { reversed } => {
            out.append(&[character(cell), attribute(reversed, cell)])
        }
        Form::Code => out.append(&cell.code.to_le_bytes()),
    }
}

fn character(cell: Cell) -> u8
    ensures { result ≡ character cell }
{
    if cell.code <= 0xFF {
        cell.code as u8
    } else {
        b'?'
    }
}

fn attribute(reversed: bool, cell: Cell) -> u8
    ensures { result ≡ attribute reversed cell }
{
    if reversed {
        swapped(cell.attr)
    } else {
        cell.attr
    }
}
