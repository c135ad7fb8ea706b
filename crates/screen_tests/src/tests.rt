//! Rows of the effect table. The expected rows are those of console_codes(4) and of this project's own rules,
//! computed by hand.
mod cells;
mod changes;
mod checks;
mod columns;
mod cursor;
mod cuts;
mod hearing;
mod sayings;
mod sizes;

use checks::{check, check_made};
use std::alloc::Global;
use std::process::Abort;
use vt_base::{NoMemory, Size};
use vt_cells::Cell;
use vt_grid::Grid;
use vt_screen::{BLANK, Emu, Out, Outs, ReportText};

const SIZE: Size = Size { rows: 3, cols: 10 };

fn start(alloc: Global, size: Size) -> Result<Emu, NoMemory> {
    let mark = Cell {
        code: 0x3F,
        attr: 0x70,
    };
    Ok(Emu::new(Grid::blank(alloc, size, mark)?))
}

// The screen of this size after a text.
fn written(alloc: Global, size: Size, text: &[u8]) -> Result<Emu, NoMemory> {
    let mut emu = start(alloc, size)?;
    emu.write(text);
    Ok(emu)
}

// Gives the screen another size, and the old grid.
fn resize(alloc: Global, emu: &mut Emu, size: Size) -> Result<Grid, NoMemory> {
    Ok(emu.resize(Grid::blank(alloc, size, BLANK)?))
}

// The cell at a place; outside the grid no cell is this one.
fn cell_at(grid: &Grid, y: u8, x: u8) -> Cell {
    let size = grid.size();
    if y < size.rows && x < size.cols {
        return grid.at(y, x);
    }
    Cell {
        code: 0xFFFF_FFFF,
        attr: 0xFF,
    }
}

// Whether a grid has this size, and a row of it these characters, and blanks after them, all in the start
// colours.
fn has_row(grid: &Grid, size: Size, y: u8, text: &str) -> bool {
    if grid.size() != size {
        return false;
    }
    let mut characters = text.chars();
    for x in 0..size.cols {
        let code = match characters.next() {
            Some(c) => c as u32,
            None => 0x20,
        };
        if cell_at(grid, y, x) != (Cell { code, attr: 0x07 }) {
            return false;
        }
    }
    characters.next().is_none()
}

// Whether a grid has this size, its rows hold these texts, and the rows after the last text are blank.
fn has_rows(grid: &Grid, size: Size, rows: &[&str]) -> bool {
    if rows.len() > usize::from(size.rows) {
        return false;
    }
    for y in 0..size.rows {
        let text = match rows.get(usize::from(y)) {
            Some(text) => *text,
            None => "",
        };
        if !has_row(grid, size, y, text) {
            return false;
        }
    }
    true
}

// Whether a grid has this size, and these are the attribute bytes of its first cell and of the last one of
// that row.
fn has_attributes(grid: &Grid, size: Size, first: u8, last: u8) -> bool {
    grid.size() == size
        && cell_at(grid, 0, 0).attr == first
        && cell_at(grid, 0, size.cols.saturating_sub(1)).attr == last
}

// Whether the cursor is in this column and row, and a wrap is pending or not.
fn has_cursor(emu: &Emu, x: u8, y: u8, wrap: bool) -> bool {
    let state = emu.state();
    state.x == x && state.y == y && state.wrap == wrap
}

// How the parts of a text are fed: by `feed`, or plainly, byte by byte.
#[derive(Clone, Copy)]
enum Way {
    Quickly,
    Plainly,
}

// Feeds a text of at most 64 bytes, and returns its side effects. A longer text isn't fed.
fn fed(emu: &mut Emu, way: Way, text: &[u8]) -> Outs {
    let mut outs = Outs::new();
    if text.len() <= 64 {
        match way {
            Way::Quickly => emu.feed(text, &mut outs),
            Way::Plainly => emu.feed_plainly(text, &mut outs),
        }
    }
    outs
}

// The number of BELs, if all of these side effects are BELs.
fn bells_of(outs: &[Out]) -> Option<usize> {
    for out in outs {
        if !matches!(out, Out::Bell) {
            return None;
        }
    }
    Some(outs.len())
}

// Whether these are so many BELs in two parts, and nothing else.
fn are_bells(first: &Outs, second: &Outs, bells: usize) -> bool {
    match (bells_of(first.as_slice()), bells_of(second.as_slice())) {
        (Some(one), Some(two)) => one.saturating_add(two) == bells,
        _ => false,
    }
}

// A text of at most 64 bytes, the rows that it makes except blank ones at the end, and how often it rings.
type Case = (&'static [u8], &'static [&'static str], usize);

const CASES: &[Case] = &[
    (b"\x1B[[AB", &["B"], 0),
    (b"\x0Eq\x0Fq", &["\u{2500}q"], 0),
    (b"\xC3(", &["\u{FFFD}("], 0),
    (b"\x1B]0;t\x07ok", &["ok"], 0),
    (b"\xE1\x80\x1BDa", &["\u{FFFD}", " a"], 0),
    (b"\xE2\x82\xAC\xF0\x90\x8C\xB0", &["\u{20AC}\u{10330}"], 0),
    (b"a\x07b\x1B[\x07Ac", &["abc"], 2),
    (b"ab\x08c\x08\x08\x08\x08d", &["dc"], 0),
    (b"\ta\tb\tc", &["        ab", "c"], 0),
    (b"1234567\ta", &["1234567 a"], 0),
    (b"12345678\ta", &["12345678 a"], 0),
    (b"1234567890\ta", &["1234567890", "a"], 0),
    (b"a\nb\x0Bc\x0Cd", &[" b", "  c", "   d"], 0),
    (b"1234567890\ra", &["a234567890"], 0),
    (b"1234567890\na", &["1234567890", "         a"], 0),
    (b"1234567890a", &["1234567890", "a"], 0),
    (b"a\x1BDb\x1BEc", &["a", " b", "c"], 0),
    (b"a\x1BMb", &[" b", "a"], 0),
    (b"\n\na\x1BMb\x1BM\x1BMc", &["  c", "", " b"], 0),
    (b"a\n\n\nb", &["", "", " b"], 0),
    (b"\x1B%@\xE9\x1B%G\xC3\xA9", &["\u{E9}\u{E9}"], 0),
    (b"\x1B%@\xC3\x1B%8\xC3\xA9", &["\u{C3}\u{E9}"], 0),
    (b"\x1B%@\x1B(0q\x1B(Bq", &["\u{2500}q"], 0),
    (
        b"\x1B%@\x1B(Ua\x1B(Ka\x1B(Za",
        &["\u{F061}\u{F061}\u{F061}"],
        0,
    ),
    (b"\x1B)B\x0Eq\x1B)U\x01\x0Fq", &["q\u{F001}q"], 0),
    (b"\x1B[3Cx\x1B]Ry\x1B]P0123456z", &["   xyz"], 0),
];

// Whether the text, fed in two parts, makes these rows, rings so often, and has no other side effect.
fn is_drawn(
    alloc: Global,
    way: Way,
    parts: (&[u8], &[u8]),
    rows: &[&str],
    bells: usize,
) -> Result<bool, NoMemory> {
    let mut emu = start(alloc, SIZE)?;
    let first = fed(&mut emu, way, parts.0);
    let second = fed(&mut emu, way, parts.1);
    Ok(has_rows(emu.grid(), SIZE, rows) && are_bells(&first, &second, bells))
}

fn check_cuts(by: &impl Abort, alloc: Global, case: &Case) {
    let (text, rows, bells) = *case;
    for cut in 0..text.len() {
        for way in [Way::Quickly, Way::Plainly] {
            let made = is_drawn(alloc, way, text.split_at(cut), rows, bells);
            check_made(by, made, text);
        }
    }
}

#[test]
fn no_cut_matters(rt: HostRuntime) {
    for case in CASES {
        check_cuts(&rt, rt.alloc(), case);
    }
}

// A text, and after it: the cursor's column and row, whether a wrap is pending, the table in use, and
// whether control characters are shown.
type Left = (&'static [u8], u8, u8, bool, u8, bool);

const LEFT: &[Left] = &[
    (b"", 0, 0, false, 0, false),
    (b"ab", 2, 0, false, 0, false),
    (b"1234567890", 9, 0, true, 0, false),
    (b"1234567890\r", 0, 0, false, 0, false),
    (b"1234567890\t", 9, 0, true, 0, false),
    (b"1234567890\x1BM", 9, 0, false, 0, false),
    (b"\x0E", 0, 0, false, 1, true),
    (&[b'x'; 130], 9, 2, true, 0, false),
];

fn is_left(alloc: Global, case: &Left) -> Result<bool, NoMemory> {
    let (text, x, y, wrap, shift, display) = *case;
    let emu = written(alloc, SIZE, text)?;
    let state = emu.state();
    Ok(has_cursor(&emu, x, y, wrap) && state.shift == shift && state.pen.display == display)
}

#[test]
fn a_text_leaves_a_state(rt: HostRuntime) {
    for case in LEFT {
        check_made(&rt, is_left(rt.alloc(), case), case.0);
    }
}

// Draws by a user's table, and then by another.
fn draw_by_tables(emu: &mut Emu) {
    emu.set_user(&[0x2603; 256]);
    emu.write(b"\x1B%@\x1B(K");
    emu.set_user(&[0x2604; 256]);
    emu.write(b"ab");
}

fn has_tables(emu: &Emu) -> bool {
    let state = emu.state();
    state.g0 == 3 && state.g1 == 1 && !state.utf8 && !state.pen.alt && !state.pen.toggle
}

fn shows_last_table(alloc: Global) -> Result<bool, NoMemory> {
    let mut emu = start(alloc, SIZE)?;
    draw_by_tables(&mut emu);
    Ok(has_row(emu.grid(), SIZE, 0, "\u{2604}\u{2604}") && has_tables(&emu))
}

#[test]
fn the_users_table_is_the_last_one(rt: HostRuntime) {
    check_made(&rt, shows_last_table(rt.alloc()), "the row and the tables");
}

fn report() -> ReportText {
    let mut text = ReportText::new();
    text.push(0x1B);
    text.push(b'c');
    text
}

fn keeps_two() -> bool {
    let mut outs = Outs::new();
    outs.push(Out::Bell);
    outs.push(Out::Report(report()));
    outs.as_slice().len() == 2 && matches!(outs.as_slice().first(), Some(Out::Bell))
}

#[test]
fn keeps_what_is_said(rt: HostRuntime) {
    check(&rt, report().as_slice() == b"\x1Bc".as_slice(), b"\x1Bc");
    check(&rt, keeps_two(), "a bell and a report");
    check(
        &rt,
        ReportText::default().as_slice().is_empty(),
        "no report",
    );
    check(&rt, Outs::default().as_slice().is_empty(), "nothing said");
}
