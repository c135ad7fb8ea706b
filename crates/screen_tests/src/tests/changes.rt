//! The rows that a text may change, found by hand from console_codes(4).
use super::checks::check_made;
use super::{SIZE, written};
use std::alloc::Global;
use vt_base::NoMemory;

// A text, the next text, and the first and the last row that the next one may change, if they are known.
type Case = (&'static [u8], &'static [u8], Option<(u8, u8)>);

const CASES: &[Case] = &[
    (b"", b"ab", Some((0, 0))),
    (b"", b"ab\r\nc", Some((0, 1))),
    (b"\x1B[2;1H", b"abcdefghijk", Some((1, 2))),
    (b"\x1B[2;3H", b"a\x08\x07\x08\x08\x08b", Some((1, 1))),
    (b"\x1B[3;1H", b"a\n", None),
    (b"\x1B[3;1H", b"abcdefghijk", None),
    (b"", b"a\x1B[1K", None),
    (b"\x1B[", b"1", None),
    (b"\x1B[?7l", b"a", None),
];

fn has_changed_rows(alloc: Global, case: &Case) -> Result<bool, NoMemory> {
    let (before, text, rows) = *case;
    let emu = written(alloc, SIZE, before)?;
    Ok(emu.changed_rows(text) == rows)
}

#[test]
fn changed_rows(rt: HostRuntime) {
    for case in CASES {
        check_made(&rt, has_changed_rows(rt.alloc(), case), case.1);
    }
}
