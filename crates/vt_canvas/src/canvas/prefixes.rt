//! The number of characters at the start of a list that are printed at once.
ghost use Rattle.std.specs.List.{prefix_len};
ghost use Rattle.std.specs.Prelude.{◌≡◌, ◌<◌, ◌≤◌, ◌+◌, ◌++◌, ℕ, [], false, true, length, slice_index, take};
ghost use Rattle.vt_cells.specs.Width.{columns, is_plain};
ghost use Rattle.vt_canvas.specs.Printing.{cells_codes, cells_of_characters};

use vt_cells::{HALF, columns, is_plain};
use vt_units::Codes;

/// The number of the first characters that are plain, of one column each: by fours, so the last ones may be
/// read twice.
#[tactic(auto, using(crate::proofs::Prefixes::plain_within))]
pub(super) fn plain_prefix(codes: &[u32]) -> usize
    ensures { result ≡ prefix_len is_plain codes.now }
{
    let mut at = 0;
    while at + 4 <= codes.len() {
        if !are_four_plain(codes, at) {
            return at + plain_rest(&codes[at..]);
        }
        at += 4;
    }
    if codes.len() >= 4 && are_four_plain(codes, codes.len() - 4) {
        return codes.len();
    }
    at + plain_rest(&codes[at..])
}

// The number of the first characters that are plain, one by one.
#[inline(never)]
fn plain_rest(codes: &[u32]) -> usize
    ensures { result ≡ prefix_len is_plain codes.now }
{
    for (i, code) in codes.iter().enumerate() {
        if !is_plain(*code) {
            return i;
        }
    }
    codes.len()
}

// Whether the four characters from this place on are plain ones.
#[inline(always)]
fn are_four_plain(codes: &[u32], at: usize) -> bool
    requires within { at + 4 ≤ length codes.now }
    ensures each { result ≡ true
        → (k : ℕ) → at ≤ k → k < at + 4 → is_plain (slice_index codes.now k) ≡ true }
{
    if !is_plain(codes[at]) {
        return false;
    }
    if !is_plain(codes[at + 1]) {
        return false;
    }
    if !is_plain(codes[at + 2]) {
        return false;
    }
    is_plain(codes[at + 3])
}

/// The number of the first characters that have at most so many cells together. The codes of these cells are
/// then in `cells`.
pub(super) fn fitting_prefix(codes: &[u32], most: usize, cells: &mut Codes) -> usize
    requires empty { cells.old ≡ [] }
    requires few { most ≤ 64 }
    ensures within { result ≤ length codes.now }
    ensures cells { cells.new ≡ cells_of_characters (take result codes.now) }
    ensures most { length cells.new ≤ most }
{
    for (i, code) in codes.iter().enumerate() {
        if !add_cells(*code, most, cells) {
            return i;
        }
    }
    codes.len()
}

// Adds the codes of a character's cells, if there are then at most so many.
fn add_cells(code: u32, most: usize, cells: &mut Codes) -> bool
    requires few { most ≤ 64 }
    requires fits { length cells.old ≤ most }
    ensures added { result ≡ true → cells.new ≡ cells.old ++ cells_codes (columns code) code }
    ensures full { result ≡ false → cells.new ≡ cells.old }
    ensures fits { length cells.new ≤ most }
{
    let width = columns(code);
    if most - cells.len() < usize::from(width) {
        return false;
    }
    if width > 0 {
        cells.push(code);
    }
    if width == 2 {
        cells.push(HALF);
    }
    true
}
