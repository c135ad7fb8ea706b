//! `vt_columns`: the columns of a character, for C.
ghost use Rattle.std.specs.Prelude.{◌≡◌};
ghost use Rattle.vt_cells.specs.Width.{columns};

use vt_cells::columns;

/// How many columns the character of this code takes: 0, 1 or 2.
#[unsafe(no_mangle)]
pub extern "C" fn vt_columns(code: u32) -> u8
    ensures { result ≡ columns code }
{
    columns(code)
}
