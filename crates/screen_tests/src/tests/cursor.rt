//! The cursor's place after each row of the table. The places are computed by hand.
use super::checks::check_made;
use super::{has_cursor, written};
use std::alloc::Global;
use vt_base::{NoMemory, Size};

const SIZE: Size = Size { rows: 3, cols: 10 };

// A text, the cursor's column and row after it, and whether a wrap is pending.
type Case = (&'static [u8], u8, u8, bool);

const CASES: &[Case] = &[
    (b"\x1B[2;5H\x1B[A", 4, 0, false),
    (b"\x1B[3;5H\x1B[0A", 4, 1, false),
    (b"\x1B[2;5H\x1B[9A", 4, 0, false),
    (b"\x1B[2;5H\x1B[B", 4, 2, false),
    (b"\x1B[99B", 0, 2, false),
    (b"\x1B[3C", 3, 0, false),
    (b"\x1B[65535C", 9, 0, false),
    (b"\x1B[99999999C", 9, 0, false),
    (b"1234567890\x1B[C", 9, 0, false),
    (b"\x1B[1;5H\x1B[2D", 2, 0, false),
    (b"\x1B[1;5H\x1B[9D", 0, 0, false),
    (b"\x1B[1;5H\x1B[E", 0, 1, false),
    (b"\x1B[1;5H\x1B[7E", 0, 2, false),
    (b"\x1B[3;5H\x1B[F", 0, 1, false),
    (b"\x1B[3;5H\x1B[7F", 0, 0, false),
    (b"\x1B[5G", 4, 0, false),
    (b"\x1B[5G\x1B[G", 0, 0, false),
    (b"\x1B[99G", 9, 0, false),
    (b"\x1B[2;3H", 2, 1, false),
    (b"\x1B[2;3H\x1B[H", 0, 0, false),
    (b"\x1B[2;3H\x1B[0;0H", 0, 0, false),
    (b"\x1B[9;99H", 9, 2, false),
    (b"\x1B[;5H", 4, 0, false),
    (b"\x1B[2a", 2, 0, false),
    (b"\x1B[1;5H\x1B[3d", 4, 2, false),
    (b"\x1B[1;5H\x1B[9d", 4, 2, false),
    (b"\x1B[2e", 0, 2, false),
    (b"\x1B[2;3f", 2, 1, false),
    (b"\x1B[5G\x1B[7`", 6, 0, false),
    (b"\x1B[5G\x1B[?2A\x1B[?5H", 4, 0, false),
    // Origin mode and the region.
    (b"\x1B[3;5H\x1B[2;3r", 0, 0, false),
    (b"\x1B[3;5H\x1B[2r", 0, 0, false),
    (b"\x1B[2;5H\x1B[3;2r", 4, 1, false),
    (b"\x1B[2;5H\x1B[2;2r", 4, 1, false),
    (b"\x1B[2;5H\x1B[1;4r", 4, 1, false),
    (b"\x1B[2;3r\x1B[?6h", 0, 1, false),
    (b"\x1B[2;3r\x1B[?6h\x1B[2;4H", 3, 2, false),
    (b"\x1B[2;3r\x1B[?6h\x1B[9;4H", 3, 2, false),
    (b"\x1B[2;3r\x1B[?6h\x1B[2d", 0, 2, false),
    (b"\x1B[2;3r\x1B[?6h\x1B[9A", 0, 1, false),
    (b"\x1B[1;2r\x1B[?6h\x1B[9B", 0, 1, false),
    (b"\x1B[1;2r\x1B[9B", 0, 2, false),
    (b"\x1B[2;3r\x1B[?6h\x1B[?6l", 0, 0, false),
    // Line feeds.
    (b"ab\n", 2, 1, false),
    (b"ab\x1B[20h\n", 0, 1, false),
    (b"ab\x1B[20h\x1B[20l\x0C", 2, 1, false),
    (b"ab\x1B[20h\x1BD", 2, 1, false),
    (b"ab\x1BE", 0, 1, false),
    (b"1234567890\x1B[20h\n", 0, 1, false),
    (b"\x1B[1;2r\x1B[3;5H\n", 4, 2, false),
    (b"\x1B[1;2r\x1B[2;5H\n", 4, 1, false),
    (b"\x1B[2;3r\x1B[2;5H\x1BM", 4, 1, false),
    (b"\x1B[2;3r\x1B[1;5H\x1BM", 4, 0, false),
    (b"\x1B[3;5H\x1BM", 4, 1, false),
    // Tab stops.
    (b"\x1B[1;5H\x1BH\r\t", 4, 0, false),
    (b"\x1B[1;5H\x1BH\t", 8, 0, false),
    (b"\x1B[1;9H\x1B[g\r\t", 9, 0, false),
    (b"\x1B[1;9H\x1B[2g\r\t", 8, 0, false),
    (b"\x1B[3g\t", 9, 0, false),
    // Saved cursors.
    (b"\x1B[2;5H\x1B7\x1B[H\x1B8", 4, 1, false),
    (b"\x1B[2;5H\x1B[s\x1B[H\x1B[u", 4, 1, false),
    (b"\x1B[2;5H\x1B8", 0, 0, false),
    (b"1234567890\x1B7\x1B8", 9, 0, false),
    (b"\x1B[3;5H\x1B7\x1B[1;2r\x1B[?6h\x1B8", 4, 1, false),
    (b"\x1B[2;5H\x1B7\x1Bc\x1B8", 0, 0, false),
    // The pending wrap.
    (b"1234567890", 9, 0, true),
    (b"1234567890\x1B[31m\x1B[?25l\x1BH\x1B(0\x1B#8", 9, 0, true),
    (b"1234567890\x1B[4J\x1B[3K\x1B[?J", 9, 0, true),
    (b"1234567890\x1B[J", 9, 0, false),
    (b"1234567890\x1B[1K", 9, 0, false),
    (b"1234567890\x1B[X", 9, 0, false),
    (b"1234567890\x1B[@", 9, 0, false),
    (b"1234567890\x1B[P", 9, 0, false),
    (b"\x1B[2;3r1234567890\x1B[L", 9, 0, false),
    (b"\x1B[2;3r1234567890\x1B[M", 9, 0, false),
    (b"\x1B[?7l1234567890", 9, 0, false),
    (b"1234567890\x1Bc", 0, 0, false),
];

fn is_left(alloc: Global, case: &Case) -> Result<bool, NoMemory> {
    let (text, x, y, wrap) = *case;
    let emu = written(alloc, SIZE, text)?;
    Ok(has_cursor(&emu, x, y, wrap))
}

#[test]
fn the_cursor_goes(rt: HostRuntime) {
    for case in CASES {
        check_made(&rt, is_left(rt.alloc(), case), case.0);
    }
}
