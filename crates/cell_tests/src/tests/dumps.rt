//! Rows of a grid as text, as vcs and vcsa, and as code points; characters of each length of UTF-8 in a row.
use super::checks::check_made;
use std::alloc::Global;
use vt_base::{Bytes, NoMemory, Size};
use vt_cells::Cell;
use vt_dump::{add_rows, codes, text_rows, vcs, vcsa};
use vt_grid::Grid;

// A row of blanks that begins with one character.
fn row(alloc: Global, cols: u8, code: u32) -> Result<Grid, NoMemory> {
    let size = Size {
        rows: 1,
        cols: cols.max(1),
    };
    let blank = Cell {
        code: 0x20,
        attr: 0x07,
    };
    let mut grid = Grid::blank(alloc, size, blank)?;
    grid.put(0, 0, Cell { code, attr: 0x07 });
    Ok(grid)
}

// A form in which a grid is dumped.
#[derive(Clone, Copy)]
enum Form {
    Characters,
    Pairs,
    Reversed,
    Codes,
}

fn dump(grid: &Grid, form: Form, out: &mut Bytes) {
    let size = grid.size();
    let cells = usize::from(size.rows) * usize::from(size.cols);
    if out.room() < 4 + 4 * cells {
        return;
    }
    match form {
        Form::Characters => vcs(grid, out),
        Form::Pairs => vcsa(grid, 1, 0, false, out),
        Form::Reversed => vcsa(grid, 1, 0, true, out),
        Form::Codes => codes(grid, out),
    }
}

fn dump_of(alloc: Global, grid: &Grid, form: Form) -> Result<Bytes, NoMemory> {
    let size = grid.size();
    let cells = usize::from(size.rows) * usize::from(size.cols);
    let mut out = Bytes::with_room(alloc, 4 + 4 * cells)?;
    dump(grid, form, &mut out);
    Ok(out)
}

// Whether the grid has this dump in this form. If memory ran out, it hasn't.
fn has_dump(alloc: Global, grid: &Grid, form: Form, wanted: &[u8]) -> bool {
    match dump_of(alloc, grid, form) {
        Ok(out) => out.as_slice() == wanted,
        Err(NoMemory) => false,
    }
}

const CHARACTERS: &[u8] = &[0x41, 0x20];

const PAIRS: &[u8] = &[1, 2, 1, 0, 0x41, 7, 0x20, 7];

const REVERSED: &[u8] = &[1, 2, 1, 0, 0x41, 0x70, 0x20, 0x70];

const CODES: &[u8] = &[0x41, 0, 0, 0, 0x20, 0, 0, 0];

fn dumps_two(alloc: Global) -> Result<bool, NoMemory> {
    let grid = row(alloc, 2, 0x41)?;
    Ok(
        has_dump(alloc, &grid, Form::Characters, CHARACTERS)
            && has_dump(alloc, &grid, Form::Pairs, PAIRS)
            && has_dump(alloc, &grid, Form::Reversed, REVERSED)
            && has_dump(alloc, &grid, Form::Codes, CODES),
    )
}

#[test]
fn dumps_a_row_of_two(rt: HostRuntime) {
    check_made(&rt, dumps_two(rt.alloc()), "characters, pairs and codes");
}

// A code point, the byte that stands for it, and the row that shows it: UTF-8 of the first and last
// code points of each length and range (the Unicode Standard, Table 3-7).
type Shown = (u32, u8, &'static [u8]);

const SHOWN: &[Shown] = &[
    (0x1F, 0x1F, b"|?|\n"),
    (0x20, 0x20, b"| |\n"),
    (0x7E, 0x7E, b"|~|\n"),
    (0x7F, 0x7F, b"|?|\n"),
    (0x9F, 0x9F, b"|?|\n"),
    (0xA0, 0xA0, b"|\xC2\xA0|\n"),
    (0xFF, 0xFF, b"|\xC3\xBF|\n"),
    (0x100, 0x3F, b"|\xC4\x80|\n"),
    (0x7FF, 0x3F, b"|\xDF\xBF|\n"),
    (0x800, 0x3F, b"|\xE0\xA0\x80|\n"),
    (0xD7FF, 0x3F, b"|\xED\x9F\xBF|\n"),
    (0xD800, 0x3F, b"|?|\n"),
    (0xDFFF, 0x3F, b"|?|\n"),
    (0xE000, 0x3F, b"|\xEE\x80\x80|\n"),
    (0x10000, 0x3F, b"|\xF0\x90\x80\x80|\n"),
    (0x10FFFF, 0x3F, b"|\xF4\x8F\xBF\xBF|\n"),
    (0x110000, 0x3F, b"||\n"),
    (0x110001, 0x3F, b"|?|\n"),
    (0xFFFF_FFFF, 0x3F, b"|?|\n"),
];

// Whether the bytes are this byte and then this text.
fn are_so(bytes: &[u8], byte: u8, text: &[u8]) -> bool {
    match bytes {
        [first, rest @ ..] => *first == byte && rest == text,
        [] => false,
    }
}

// The character, and then the row.
fn with_row(alloc: Global, grid: &Grid) -> Result<Bytes, NoMemory> {
    let mut out = dump_of(alloc, grid, Form::Characters)?;
    add_rows(alloc, &mut out, grid)?;
    Ok(out)
}

// Whether the first byte is this one, and the rest this text.
fn begins(alloc: Global, grid: &Grid, byte: u8, text: &[u8]) -> bool {
    match with_row(alloc, grid) {
        Ok(out) => are_so(out.as_slice(), byte, text),
        Err(NoMemory) => false,
    }
}

fn has_text(alloc: Global, grid: &Grid, text: &[u8]) -> bool {
    match text_rows(alloc, grid) {
        Ok(rows) => rows.as_slice() == text,
        Err(NoMemory) => false,
    }
}

fn is_shown(alloc: Global, case: &Shown) -> Result<bool, NoMemory> {
    let (code, byte, text) = *case;
    let grid = row(alloc, 1, code)?;
    Ok(has_text(alloc, &grid, text) && begins(alloc, &grid, byte, text))
}

#[test]
fn shows_characters(rt: HostRuntime) {
    for case in SHOWN {
        check_made(&rt, is_shown(rt.alloc(), case), case.2);
    }
}
