//! `row_characters`: a row's characters in UTF-8, in place.
ghost use Rattle.std.specs.Prelude.{◌≡◌, ◌+◌, ◌<◌, ◌≤◌, ◌++◌, length};
ghost use Rattle.std.specs.List.{flat_map};
ghost use Rattle.vt_dump.specs.Rows.{cell_text};
ghost use Rattle.vt_grid.specs.Grid.{row_at};

use crate::texts::is_shown;
use vt_base::ShortList;
use vt_cells::{Cell, HALF};
use vt_grid::Grid;

/// The most bytes of a row's characters: four for each.
const MOST_BYTES: usize = 1_020;

/// The characters of a row in UTF-8, as [`text_row`](crate::text_row) has them between its bars.
pub fn row_characters(g: &Grid, y: u8) -> ShortList<u8, MOST_BYTES>
    requires { y < g.now.rows }
    ensures { result ≡ flat_map cell_text (row_at g.now y) }
{
    g.stays_full();
    let mut text = ShortList::new();
    for cell in g.row(y) {
        push_text(cell, &mut text);
    }
    text
}

fn push_text(cell: Cell, text: &mut ShortList<u8, MOST_BYTES>)
    requires { length text.old + 4 ≤ 1020 }
    ensures text { text.new ≡ text.old ++ cell_text cell }
    ensures few { length text.new ≤ length text.old + 4 }
{
    if cell.code == HALF {
        return;
    }
    match char::from_u32(cell.code) {
        Some(c) if is_shown(c) => {
            let mut buffer = [0; 4];
            text.extend(c.encode_utf8(&mut buffer).as_bytes());
        }
        _ => text.extend(b"?"),
    }
}
