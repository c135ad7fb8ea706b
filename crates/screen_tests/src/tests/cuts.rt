//! Short sequences that are cut at each of their bytes, compared with the same text read byte by byte.
use super::checks::check_made;
use super::{SIZE, Way, cell_at, fed, has_cursor, start};
use std::alloc::Global;
use vt_base::NoMemory;
use vt_grid::Grid;
use vt_screen::{Emu, Out, Outs};

// Each of at most 64 bytes.
const TEXTS: &[&[u8]] = &[
    // no number, and numbers of one to six digits
    b"abcde\x1B[Dx",
    b"abcde\x1B[2Dx",
    b"abcde\x1B[02Dx",
    b"abcde\x1B[002Dx",
    b"abcde\x1B[0002Dx",
    b"abcde\x1B[00002D\x1B[999D",
    b"abcde\x1B[1000D\x1B[65536C\x1B[100000D",
    b"\x1B[3G\x1B[12G\x1B[123G\x1B[1234G\x1B[4Gx",
    // two numbers, and empty ones
    b"\x1B[2;3Hx",
    b"\x1B[02;03Hx\x1B[002;004Hy\x1B[0002;5Hz",
    b"\x1B[2;0003Hx\x1B[3;00009Hy",
    b"\x1B[;3Hx",
    b"\x1B[2;Hx",
    b"ab\x1B[;Hx",
    b"\x1B[2;2r\x1B[1;2r\x1B[2;3r\x1B[;r\x1B[0;2rx",
    b"\x1B[12;1]\x1B[1;4]\x1B[2;3]\x1B[15]x",
    // reports, lights and BELs between them
    b"\x1B[2;3H\x1B[6nx\x1B[5n\x1B[3q\x07y\x1B[12;5]\x1B[c\x1B[6n",
    // three numbers and more
    b"\x1B[2;3;4Hx",
    b"\x1B[;;Hx\x1B[2;;Hy\x1B[;2;Hz",
    b"\x1B[1;31;44mx\x1B[0;7mx\x1B[;4mx\x1B[1;;3mx",
    b"\x1B[38;5;196mx\x1B[48;2;1;2;200mx\x1B[38;5;0001;4mx",
    b"\x1B[0001;0031;44m\x1B[31;0044;4mx\x1B[1;1;1;1;1;1;1;1;1;1;1;1m",
    b"\x1B[38;5mx\x1B[48;5;1;38;5;2mx\x1B[38;4mx\x1B[4;38;2;1mx",
    b"\x1B[4;20h\x1B[0;4;20lx",
    // private ones
    b"\x1B[?5hx\x1B[?5lx",
    b"\x1B[?6hx\x1B[?2;3Hx\x1B[?0007l1234567890x",
    b"\x1B[?1;5;25lx\x1B[?25h\x1B[?;7h",
    // bytes that end no sequence of this kind
    b"x\x1B[5[Ay",
    b"x\x1B[[Ay\x1B[5;6[By",
    b"x\x1B[5 qy\x1B[5;6$ry",
    b"x\x1B[5:2Cy\x1B[>5cy",
    b"x\x1B[5~y\x1B[{y\x1B[5\x7FCy",
    b"x\x1B[2\nCy\x1B[2;\x073Hy",
    b"x\x1B[5\x18Cy\x1B[5\x1ACy",
    b"x\x1B[5\x1B[2Cy\x1B[\x1B[Cy",
    b"x\x1B[5\xC3\xA9Cy",
    b"x\x1B[5\x9B2Cy",
    // other ways to read a byte
    b"\x1B%@\x1B[2;3H\xE9\x9B2C\xE9\x1B%G\x1B[1;1Hx",
    b"\x1B%@x\x1B[3hx\x07\x1B[2C\x1B[3lx",
    b"\x1B[3h\x01x\x1B[3l\x01x",
    b"\x1B[11m\x01x\x1B[2C\x1B[10m\x01x",
    b"abc\x1B[1G\x1B[4hxy\x1B[4lz",
    b"1234567890\x1B[Dx\x1B[1;10Hyz",
    b"\x1BMx\x1BDx\x1BEx\x1BHx\x1B7\x1B[2;2H\x1B8x",
    b"\x1B[2J\x1B[K\x1B[1J\x1B[3;5Hx\x1B[1K\x1B[2Ky",
    b"a\r\nb\r\nc\x1B[H\x1B[Mx\x1B[2Mx\x1B[Lx\x1B[2Lx",
    b"abcdef\x1B[1;2H\x1B[P\x1B[2P\x1B[@\x1B[3@\x1B[X\x1B[2Xx",
];

// Whether both have the size of these tests, and the same cells.
fn are_alike(grid: &Grid, other: &Grid) -> bool {
    if grid.size() != SIZE || other.size() != SIZE {
        return false;
    }
    for y in 0..SIZE.rows {
        for x in 0..SIZE.cols {
            if cell_at(grid, y, x) != cell_at(other, y, x) {
                return false;
            }
        }
    }
    true
}

// Whether both show the same cells, cursor and region.
fn shows_alike(emu: &Emu, other: &Emu) -> bool {
    let state = other.state();
    let region = emu.state();
    are_alike(emu.grid(), other.grid())
        && has_cursor(emu, state.x, state.y, state.wrap)
        && region.top == state.top
        && region.bottom == state.bottom
}

// Whether two side effects are the same.
fn is_same(out: &Out, other: &Out) -> bool {
    match (out, other) {
        (Out::Report(text), Out::Report(bytes)) => text.as_slice() == bytes.as_slice(),
        (Out::SwitchTo(n), Out::SwitchTo(m)) => n == m,
        (Out::SwitchLast, Out::SwitchLast) => true,
        (Out::Lights(n), Out::Lights(m)) => n == m,
        (Out::Bell, Out::Bell) => true,
        _ => false,
    }
}

// Whether these side effects are the others from one of them on, as many as there are.
fn stand_at(outs: &[Out], at: usize, others: &[Out]) -> bool {
    for (i, out) in outs.iter().enumerate() {
        match others.get(at.saturating_add(i)) {
            Some(other) => {
                if !is_same(out, other) {
                    return false;
                }
            }
            None => return false,
        }
    }
    true
}

// Whether the side effects of both parts, one after the other, are those of the whole.
fn are_said(first: &[Out], second: &[Out], said: &[Out]) -> bool {
    first.len().saturating_add(second.len()) == said.len()
        && stand_at(first, 0, said)
        && stand_at(second, first.len(), said)
}

// Whether the two parts draw the plain screen, and have these side effects.
fn draws_alike(emu: &mut Emu, plain: &Emu, said: &Outs, parts: (&[u8], &[u8])) -> bool {
    let first = fed(emu, Way::Quickly, parts.0);
    let second = fed(emu, Way::Quickly, parts.1);
    shows_alike(emu, plain) && are_said(first.as_slice(), second.as_slice(), said.as_slice())
}

// The same on a screen of its own. If memory ran out, it isn't so.
fn is_alike(alloc: Global, plain: &Emu, said: &Outs, parts: (&[u8], &[u8])) -> bool {
    match start(alloc, SIZE) {
        Ok(emu) => {
            let mut emu = emu;
            draws_alike(&mut emu, plain, said, parts)
        }
        Err(NoMemory) => false,
    }
}

// Whether the text cut at each place draws the same as its bytes one by one.
fn are_alike_cut(alloc: Global, plain: &mut Emu, text: &[u8]) -> bool {
    let said = fed(plain, Way::Plainly, text);
    for cut in 0..text.len() {
        if !is_alike(alloc, plain, &said, text.split_at(cut)) {
            return false;
        }
    }
    true
}

fn is_read(alloc: Global, text: &[u8]) -> Result<bool, NoMemory> {
    let mut plain = start(alloc, SIZE)?;
    Ok(are_alike_cut(alloc, &mut plain, text))
}

#[test]
fn short_sequences_are_read_as_their_bytes(rt: HostRuntime) {
    for text in TEXTS {
        check_made(&rt, is_read(rt.alloc(), text), text);
    }
}
