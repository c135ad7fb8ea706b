//! The effect of each row of the table on the cells. The cells are computed by hand.
use super::checks::check_made;
use super::{has_attributes, has_rows, written};
use std::alloc::Global;
use vt_base::{NoMemory, Size};

const SIZE: Size = Size { rows: 3, cols: 10 };

const FULL: &[u8] = b"abcdefghij\r\nklmnopqrst\r\nuvwxyzABCD";

const TOP: &str = "abcdefghij";

const MIDDLE: &str = "klmnopqrst";

const BOTTOM: &str = "uvwxyzABCD";

// A text after the full screen, and the rows after it.
type Case = (&'static [u8], [&'static str; 3]);

const CASES: &[Case] = &[
    (b"", [TOP, MIDDLE, BOTTOM]),
    (b"\x1B[2;5H\x1B[J", [TOP, "klmn", ""]),
    (b"\x1B[3;1H\x1B[0J", [TOP, MIDDLE, ""]),
    (b"\x1B[2;5H\x1B[1J", ["", "     pqrst", BOTTOM]),
    (b"\x1B[1;10H\x1B[1J", ["", MIDDLE, BOTTOM]),
    (b"\x1B[2;5H\x1B[2J", ["", "", ""]),
    (b"\x1B[2;5H\x1B[3J", ["", "", ""]),
    (b"\x1B[2;5H\x1B[4J\x1B[?J", [TOP, MIDDLE, BOTTOM]),
    (b"\x1B[2;5H\x1B[K", [TOP, "klmn", BOTTOM]),
    (b"\x1B[2;5H\x1B[1K", [TOP, "     pqrst", BOTTOM]),
    (b"\x1B[2;5H\x1B[2K", [TOP, "", BOTTOM]),
    (b"\x1B[2;5H\x1B[3K\x1B[?K", [TOP, MIDDLE, BOTTOM]),
    (b"\x1B[2;5H\x1B[X", [TOP, "klmn pqrst", BOTTOM]),
    (b"\x1B[2;5H\x1B[2X", [TOP, "klmn  qrst", BOTTOM]),
    (b"\x1B[2;9H\x1B[99X", [TOP, "klmnopqr", BOTTOM]),
    (b"\x1B[2;5H\x1B[@", [TOP, "klmn opqrs", BOTTOM]),
    (b"\x1B[2;5H\x1B[2@", [TOP, "klmn  opqr", BOTTOM]),
    (b"\x1B[2;5H\x1B[65535@", [TOP, "klmn", BOTTOM]),
    (b"\x1B[2;5H\x1B[P", [TOP, "klmnpqrst", BOTTOM]),
    (b"\x1B[2;5H\x1B[2P", [TOP, "klmnqrst", BOTTOM]),
    (b"\x1B[2;5H\x1B[65535P", [TOP, "klmn", BOTTOM]),
    (b"\x1B[2;5H\x1B[L", [TOP, "", MIDDLE]),
    (b"\x1B[1;5H\x1B[2L", ["", "", TOP]),
    (b"\x1B[2;5H\x1B[99L", [TOP, "", ""]),
    (b"\x1B[2;5H\x1B[M", [TOP, BOTTOM, ""]),
    (b"\x1B[1;5H\x1B[2M", [BOTTOM, "", ""]),
    (b"\x1B[2;5H\x1B[99M", [TOP, "", ""]),
    // The region.
    (b"\x1B[1;2r\x1B[1;5H\x1B[L", ["", TOP, BOTTOM]),
    (b"\x1B[1;2r\x1B[1;5H\x1B[M", [MIDDLE, "", BOTTOM]),
    (b"\x1B[1;2r\x1B[3;5H\x1B[L\x1B[M", [TOP, MIDDLE, BOTTOM]),
    (b"\x1B[2;3r\x1B[1;5H\x1B[L\x1B[M", [TOP, MIDDLE, BOTTOM]),
    (b"\x1B[1;2r\x1B[2;5H\n", [MIDDLE, "", BOTTOM]),
    (b"\x1B[1;2r\x1B[3;5H\n", [TOP, MIDDLE, BOTTOM]),
    (b"\x1B[2;3r\x1B[2;5H\x1BM", [TOP, "", MIDDLE]),
    (b"\x1B[2;3r\x1B[1;5H\x1BM", [TOP, MIDDLE, BOTTOM]),
    (b"\x1B[1;2r\x1B[2;10HXY", ["klmnopqrsX", "Y", BOTTOM]),
    // Printing.
    (b"\x1B[1;5H\x1B[4hXY", ["abcdXYefgh", MIDDLE, BOTTOM]),
    (b"\x1B[1;10H\x1B[4hXY", ["abcdefghiX", "Yklmnopqrs", BOTTOM]),
    (b"\x1B[1;5H\x1B[4h\x1B[4lX", ["abcdXfghij", MIDDLE, BOTTOM]),
    (b"\x1B[1;9H\x1B[?7lXYZ", ["abcdefghXZ", MIDDLE, BOTTOM]),
    (b"\x1B[1;10HX\x1B[?7lY", ["abcdefghiY", MIDDLE, BOTTOM]),
    (
        b"\x1B[1;9H\x1B[?7l\x1B[?7hXYZ",
        ["abcdefghXY", "Zlmnopqrst", BOTTOM],
    ),
    // The whole screen.
    (b"\x1B#8", ["EEEEEEEEEE", "EEEEEEEEEE", "EEEEEEEEEE"]),
    (b"\x1B#7\x1B$8", [TOP, MIDDLE, BOTTOM]),
    (b"\x1Bc", ["", "", ""]),
    (b"\x1B[1;2r\x1Bc\x1B[3;1H\nX", ["", "", "X"]),
];

// A text, and the attribute bytes of the first cell and of the last one of its row after it.
type Coloured = (&'static [u8], u8, u8);

const COLOURED: &[Coloured] = &[
    (b"A", 0x07, 0x07),
    (b"\x1B[31mA", 0x04, 0x07),
    (b"\x1B[1;1;1;1;1;1;1;1;1;1;1;1;1;1;1;1;31mA", 0x0F, 0x07),
    (b"\x1B[44mA\x1B[K", 0x17, 0x17),
    (b"\x1B[5;7mA\x1B[K", 0xF0, 0x07),
    (b"\x1B[1;34mA\x1B[2J", 0x01, 0x01),
    (b"\x1B[44m\x1B[9X", 0x17, 0x07),
    (b"\x1B[41m\x1B[4hA", 0x47, 0x07),
    (b"\x1B[41m\x1B[@", 0x47, 0x07),
    (b"\x1B[41m\x1B[P", 0x07, 0x47),
    (b"\x1B[41m\x1B[L", 0x47, 0x47),
    (b"\x1B[41m\x1B[3;1H\n\n\n", 0x47, 0x47),
    (b"\x1B[44;7m\x1B#8", 0x17, 0x17),
    (b"\x1B[31m\x1B7\x1B[0m\x1B8A", 0x04, 0x07),
    (b"\x1B[31m\x1B[s\x1B[0m\x1B[uA", 0x04, 0x07),
    (b"\x1B[1;4]\x1B[4mA", 0x01, 0x07),
    (b"\x1B[1;16]\x1B[4mA", 0x0F, 0x07),
    (b"\x1B[2;2]\x1B[2mA", 0x02, 0x07),
    (b"\x1B[2;16]\x1B[2mA", 0x08, 0x07),
    (b"\x1B[32;44m\x1B[8]\x1B[0mA", 0x12, 0x07),
    (b"\x1B[32;44m\x1B[8]\x1BcA", 0x07, 0x07),
    (b"\x1B[32;44m\x1B[8]\x1Bc\x1B[mA", 0x12, 0x07),
    (b"\x1B[1;4]\x1Bc\x1B[4mA", 0x01, 0x07),
    (b"\x1B[31mA\x1BcA", 0x07, 0x07),
];

fn is_changed(alloc: Global, case: &Case) -> Result<bool, NoMemory> {
    let (text, rows) = *case;
    let mut emu = written(alloc, SIZE, FULL)?;
    emu.write(text);
    Ok(has_rows(emu.grid(), SIZE, &rows))
}

#[test]
fn cells_change(rt: HostRuntime) {
    for case in CASES {
        check_made(&rt, is_changed(rt.alloc(), case), case.0);
    }
}

fn is_coloured(alloc: Global, case: &Coloured) -> Result<bool, NoMemory> {
    let (text, first, last) = *case;
    let emu = written(alloc, SIZE, text)?;
    Ok(has_attributes(emu.grid(), SIZE, first, last))
}

#[test]
fn cells_have_the_pens_colours(rt: HostRuntime) {
    for case in COLOURED {
        check_made(&rt, is_coloured(rt.alloc(), case), case.0);
    }
}
