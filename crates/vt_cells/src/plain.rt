//! A fast test for codes of one column.
ghost use Rattle.std.specs.Prelude.{◌≡◌};
ghost use Rattle.vt_cells.specs.Width.{is_plain};

/// The number of codes of a block.
const BLOCK: u32 = 64;

const Y: bool = true;

const N: bool = false;

/// For each block, whether each of its codes takes one column and is of a kind that is frequent in text. The
/// comment after a row is its first code.
#[rattlefmt::skip]
static PLAIN: [bool; 160] = [
    Y, Y, N, Y, Y, Y, Y, Y, Y, Y, Y, Y, N, N, Y, Y, // 0000
    Y, Y, N, Y, Y, N, N, N, N, N, N, N, N, N, N, N, // 0400
    N, N, N, N, N, N, N, N, N, N, N, N, N, N, N, N, // 0800
    N, N, N, N, N, N, N, N, N, N, N, N, N, N, N, N, // 0C00
    N, N, N, N, N, N, N, N, N, N, N, N, N, N, N, N, // 1000
    N, N, N, N, N, N, N, N, N, N, N, N, N, N, N, N, // 1400
    N, N, N, N, N, N, N, N, N, N, N, N, N, N, N, N, // 1800
    N, N, N, N, N, N, N, N, Y, Y, Y, Y, Y, Y, Y, Y, // 1C00
    N, N, Y, N, Y, Y, Y, Y, Y, Y, Y, Y, N, N, N, N, // 2000
    Y, Y, Y, Y, Y, Y, Y, N, N, N, N, N, N, N, N, N, // 2400
];

/// Whether the code's block has only codes that take one column. Most text except Han characters
/// is such. It is faster than [`crate::columns`].
#[inline(always)]
pub fn is_plain(code: u32) -> bool
    ensures { result ≡ is_plain code }
{
    let block = (code / BLOCK) as usize;
    block < PLAIN.len() && PLAIN[block]
}
