//! Screens of other sizes, and a screen that gets another size. The cells are computed by hand.
use super::checks::check_made;
use super::{has_attributes, has_cursor, has_row, has_rows, resize, start, written};
use std::alloc::Global;
use vt_base::{NoMemory, Size};
use vt_screen::Emu;

fn size(rows: u8, cols: u8) -> Size {
    Size {
        rows: rows.max(1),
        cols: cols.max(1),
    }
}

fn write_bytewise(emu: &mut Emu, text: &[u8]) {
    for byte in text {
        emu.write(&[*byte]);
    }
}

// The rows and columns of a screen, a text, and the rows that it makes except blank ones at the end.
type Worked = (u8, u8, &'static [u8], &'static [&'static str]);

const WORKED: &[Worked] = &[
    (2, 5, b"\x1B[2;2HX", &["", " X"]),
    (1, 6, b"ab\x1B[\x083CX", &["ab  X"]),
    (3, 2, b"\x1B[2;3ra\r\nb\r\nc\r\nd", &["a", "c", "d"]),
    (3, 2, b"ab\x1B[1;1H\x1B[@", &[" a"]),
    (1, 1, b"ab\x1B[@\x1B[2K\x1B[Jc\n\x1BM", &[""]),
    (1, 1, b"\x1B[1;1r\x1B[?6habc", &["c"]),
    (2, 1, b"\x1B[4ha\x1B[Pbc", &["b", "c"]),
];

// Whether the text makes these rows, read byte by byte.
fn is_worked(alloc: Global, case: &Worked) -> Result<bool, NoMemory> {
    let (rows, cols, text, expected) = *case;
    let mut emu = start(alloc, size(rows, cols))?;
    write_bytewise(&mut emu, text);
    Ok(has_rows(emu.grid(), size(rows, cols), expected))
}

#[test]
fn worked_rows(rt: HostRuntime) {
    for case in WORKED {
        check_made(&rt, is_worked(rt.alloc(), case), case.2);
    }
}

fn goes_over(alloc: Global) -> Result<bool, NoMemory> {
    let mut emu = written(alloc, size(2, 5), b"\x1B")?;
    emu.write(b"[");
    emu.write(b"2;2HX");
    Ok(has_row(emu.grid(), size(2, 5), 1, " X"))
}

#[test]
fn a_sequence_goes_over_three_writes(rt: HostRuntime) {
    check_made(&rt, goes_over(rt.alloc()), "the second row");
}

// A text on a screen of two rows and five columns, another size, and then the rows except blank ones at the
// end, and the cursor's column and row.
type Resized = (&'static [u8], u8, u8, &'static [&'static str], u8, u8);

const RESIZED: &[Resized] = &[
    (b"abcdefghij", 1, 3, &["fgh"], 2, 0),
    (b"abcdefghij", 3, 7, &["abcde", "fghij"], 4, 1),
    (b"abcdefghij\x1B[1;2H", 1, 3, &["abc"], 1, 0),
    (b"abcdefghij", 2, 5, &["abcde", "fghij"], 4, 1),
    (b"\x1B[1;1Ha\x1B[1", 2, 9, &["a"], 1, 0),
    (b"abcdefghij\x1B[1;1H", 1, 9, &["abcde"], 0, 0),
    (b"\x1B[2;2H", 1, 1, &[""], 0, 0),
];

// The screen of two rows and five columns after a text, at another size.
fn resized(alloc: Global, text: &[u8], rows: u8, cols: u8) -> Result<Emu, NoMemory> {
    let mut emu = written(alloc, Size { rows: 2, cols: 5 }, text)?;
    let _old = resize(alloc, &mut emu, size(rows, cols))?;
    Ok(emu)
}

// Whether the region is the whole screen of so many rows.
fn has_whole_region(emu: &Emu, rows: u8) -> bool {
    let state = emu.state();
    state.top == 0 && state.bottom.saturating_add(1) == rows
}

fn is_resized(alloc: Global, case: &Resized) -> Result<bool, NoMemory> {
    let (text, rows, cols, expected, x, y) = *case;
    let emu = resized(alloc, text, rows, cols)?;
    Ok(
        has_rows(emu.grid(), size(rows, cols), expected)
            && has_cursor(&emu, x, y, false)
            && has_whole_region(&emu, rows),
    )
}

#[test]
fn a_screen_gets_another_size(rt: HostRuntime) {
    for case in RESIZED {
        check_made(&rt, is_resized(rt.alloc(), case), case.0);
    }
}

// Whether the pending bytes stay, so that the sequence goes on.
fn goes_on(alloc: Global) -> Result<bool, NoMemory> {
    let mut emu = resized(alloc, b"\x1B[44m\x1B[2;2r\x1B[1;1H\x1B[3", 2, 9)?;
    emu.write(b"Cx");
    let grid = emu.grid();
    Ok(emu.state().x == 4 && has_attributes(grid, size(2, 9), 0x07, 0x17))
}

#[test]
fn a_sequence_goes_on_at_another_size(rt: HostRuntime) {
    check_made(
        &rt,
        goes_on(rt.alloc()),
        "the cursor, the size and the colours",
    );
}

// Whether the grid that comes back has its old size.
fn gives_back(alloc: Global) -> Result<bool, NoMemory> {
    let mut emu = start(alloc, size(2, 5))?;
    let old = resize(alloc, &mut emu, size(3, 7))?;
    Ok(old.size() == size(2, 5))
}

#[test]
fn the_old_grid_comes_back(rt: HostRuntime) {
    check_made(&rt, gives_back(rt.alloc()), "the old grid");
}
