//! Characters of two columns and of none. The cells are computed by hand.
use super::checks::check_made;
use super::{Way, cell_at, fed, has_cursor, resize, start, written};
use std::alloc::Global;
use vt_base::{Bytes, NoMemory, Size};
use vt_cells::HALF;
use vt_dump::{codes, vcsa};
use vt_grid::Grid;
use vt_screen::Emu;

// The code of a Han character.
const HAN: u32 = 0x4E2D;

// A space.
const S: u32 = 0x20;

const ROW: Size = Size { rows: 1, cols: 4 };

// Whether the grid is one row of these codes.
fn has_codes(grid: &Grid, wanted: &[u32]) -> bool {
    let size = grid.size();
    if size.rows != 1 || usize::from(size.cols) != wanted.len() {
        return false;
    }
    for x in 0..size.cols {
        if wanted.get(usize::from(x)) != Some(&cell_at(grid, 0, x).code) {
            return false;
        }
    }
    true
}

// A text on a screen of one row and four columns, and the codes of the row, the cursor's column and
// whether a wrap is pending after it.
type Case = (&'static [u8], [u32; 4], u8, bool);

const CASES: &[Case] = &[
    (b"\xE4\xB8\xAD", [HAN, HALF, S, S], 2, false),
    (b"a\xE4\xB8\xAD", [0x61, HAN, HALF, S], 3, false),
    (b"ab\xE4\xB8\xAD", [0x61, 0x62, HAN, HALF], 3, true),
    (b"ab\xE4\xB8\xAD\xCC\x81", [0x61, 0x62, HAN, HALF], 3, true),
    (b"abc\xE4\xB8\xAD", [HAN, HALF, S, S], 2, false),
    (b"\xE4\xB8\xAD\x1B[1;2Hx", [S, 0x78, S, S], 2, false),
    (b"\xE4\xB8\xAD\x1B[1;1Hx", [0x78, S, S, S], 1, false),
    (b"e\xCC\x81\xE2\x80\x8Df", [0x65, 0x66, S, S], 2, false),
    (
        b"\x1B[?7labc\xE4\xB8\xAD",
        [0x61, 0x62, HAN, HALF],
        3,
        false,
    ),
    (
        b"bc\x1B[1;1H\x1B[4h\xE4\xB8\xAD",
        [HAN, HALF, 0x62, 0x63],
        2,
        false,
    ),
    (
        b"\xE4\xB8\xADbc\x1B[1;1H\x1B[4ha",
        [0x61, HAN, HALF, 0x62],
        1,
        false,
    ),
    (
        b"ab\xE4\xB8\xAD\x1B[1;1H\x1B[4hx",
        [0x78, 0x61, 0x62, S],
        1,
        false,
    ),
    (
        b"\x1B[4h\xE4\xB8\xAD\r\xE4\xB8\x80",
        [0x4E00, HALF, HAN, HALF],
        2,
        false,
    ),
    (
        b"\xE4\xB8\xAD\xE4\xB8\xAD\x1B[1;2H\x1B[P",
        [S, HAN, HALF, S],
        1,
        false,
    ),
    (
        b"\xF0\x9F\x98\x80\xE2\x9D\xA4\xEF\xB8\x8F",
        [0x1F600, HALF, 0x2764, S],
        3,
        false,
    ),
];

fn is_left(alloc: Global, way: Way, case: &Case) -> Result<bool, NoMemory> {
    let (text, codes, x, wrap) = *case;
    let mut emu = start(alloc, ROW)?;
    let _ = fed(&mut emu, way, text);
    Ok(has_codes(emu.grid(), &codes) && has_cursor(&emu, x, 0, wrap))
}

#[test]
fn characters_take_their_columns(rt: HostRuntime) {
    for case in CASES {
        check_made(&rt, is_left(rt.alloc(), Way::Quickly, case), case.0);
        check_made(&rt, is_left(rt.alloc(), Way::Plainly, case), case.0);
    }
}

// The pairs of a screen, and then its codes.
fn dumped(alloc: Global, emu: &Emu) -> Result<Bytes, NoMemory> {
    let grid = emu.grid();
    let state = emu.state();
    let size = grid.size();
    let cells = usize::from(size.rows) * usize::from(size.cols);
    let mut out = Bytes::with_room(alloc, 4 + 6 * cells)?;
    vcsa(grid, state.x, state.y, state.reverse, &mut out);
    codes(grid, &mut out);
    Ok(out)
}

const DUMPED: &[u8] = b"\x01\x02\x01\x00\x3F\x07\x3F\x07\x2D\x4E\0\0\0\0\x11\0";

fn has_dumps(alloc: Global) -> Result<bool, NoMemory> {
    let emu = written(alloc, Size { rows: 1, cols: 2 }, b"\xE4\xB8\xAD")?;
    Ok(dumped(alloc, &emu)?.as_slice() == DUMPED)
}

#[test]
fn dumps_show_both_halves(rt: HostRuntime) {
    check_made(&rt, has_dumps(rt.alloc()), DUMPED);
}

fn draws_a_byte(alloc: Global) -> Result<bool, NoMemory> {
    let mut emu = start(alloc, ROW)?;
    emu.set_user(&[0x4E2D; 256]);
    emu.write(b"\x1B%@\x1B(Kab");
    Ok(has_codes(emu.grid(), &[HAN, HAN, S, S]))
}

#[test]
fn a_byte_of_a_table_takes_one_column(rt: HostRuntime) {
    check_made(&rt, draws_a_byte(rt.alloc()), "the row");
}

// Whether the pair is whole on the old screen, and gone on a smaller one.
fn cuts_no_pair(alloc: Global) -> Result<bool, NoMemory> {
    let mut emu = written(alloc, ROW, b"a\xE4\xB8\xADb")?;
    let old = resize(alloc, &mut emu, Size { rows: 1, cols: 2 })?;
    Ok(has_codes(emu.grid(), &[0x61, S]) && has_codes(&old, &[0x61, HAN, HALF, 0x62]))
}

#[test]
fn a_smaller_screen_cuts_no_pair(rt: HostRuntime) {
    check_made(&rt, cuts_no_pair(rt.alloc()), "both rows");
}
