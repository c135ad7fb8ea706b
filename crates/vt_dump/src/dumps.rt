//! The three dumps of a screen as bytes.
ghost use Rattle.std.specs.Prelude.{◌≡◌, ◌+◌, ◌*◌, ◌≤◌};
ghost use Rattle.vt_base.specs.Bytes.{Grew};
ghost use Rattle.vt_dump.specs.Dumps.{cell_count, codes_bytes, vcs_bytes, vcsa_bytes};

use crate::cells::add_cells;
use crate::form::Form;
use vt_base::Bytes;
use vt_grid::Grid;

/// Appends a byte for each cell: its character, or `?` if that is more than one byte (vcs(4)).
pub fn vcs(g: &Grid, out: &mut Bytes)
    requires { cell_count g.now ≤ out.old.room }
    ensures grew { Grew (vcs_bytes g.now) out.old out.new }
    ensures room { out.new.room + cell_count g.now ≡ out.old.room }
{
    add_cells(Form::Character, g, out)
}

/// Appends lines, columns, the cursor's column `x` and row `y`, and for each cell its character and
/// its attribute (vcs(4), `/dev/vcsa`).
pub fn vcsa(g: &Grid, x: u8, y: u8, reversed: bool, out: &mut Bytes)
    requires { 4 + 2 * cell_count g.now ≤ out.old.room }
    ensures grew { Grew (vcsa_bytes g.now x y reversed) out.old out.new }
    ensures room { out.new.room + 4 + 2 * cell_count g.now ≡ out.old.room }
{
    let size = g.size();
    out.append(&[size.rows, size.cols, x, y]);
    add_cells(Form::WithAttribute { reversed }, g, out)
}

/// Appends four bytes for each cell: its code point, the lowest byte first. This project's own.
pub fn codes(g: &Grid, out: &mut Bytes)
    requires { 4 * cell_count g.now ≤ out.old.room }
    ensures grew { Grew (codes_bytes g.now) out.old out.new }
    ensures room { out.new.room + 4 * cell_count g.now ≡ out.old.room }
{
    add_cells(Form::Code, g, out)
}
