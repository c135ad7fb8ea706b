//! Inputs that come in pieces (docs/reference/program.md, "Order").
ghost use Rattle.std.specs.Prelude.{None, false};

use super::printed::{Printed, blank, words_of};
use std::alloc::Global;
use std::process::Abort;
use vt_base::NoMemory;
use vt_io::{Failed, Source};
use vt_tool::vt_command;

/// A source of so many bytes `a` that come in pieces: a read gives no more than is left of one. It isn't steady: each
/// read counts a fault, though none fails, as those of a source that reads ahead may.
#[derive(Drop)]
struct Pieces {
    left: usize,
    piece: usize,
    left_of_piece: usize,
    faults: u64,
}

impl Source for Pieces {
    ghost stream = { λ s. record { bytes = None; faults = s.faults } };

    ghost steady = { false };

    fn read(&mut self, buf: &mut [u8]) -> Result<usize, Failed> {
        self.faults = self.faults.saturating_add(1);
        if self.left_of_piece == 0 {
            self.left_of_piece = self.piece;
        }
        let count = self.left_of_piece.min(self.left).min(buf.len());
        buf[..count].fill(b'a');
        self.left_of_piece -= count;
        self.left -= count;
        Ok(count)
    }
}

// Draws so many bytes that come in pieces of this size, and prints the result.
fn draw(alloc: Global, words: &[String], bytes: usize, piece: usize, printed: &mut Printed) {
    let mut src = Pieces {
        left: bytes,
        piece,
        left_of_piece: 0,
        faults: 0,
    };
    let Printed { status, out, err } = printed;
    let ended = vt_command(alloc, words, &mut src, out, err);
    *status = ended.number();
}

// How many bytes, in pieces of which size, and the status and the row.
type Row = (usize, usize, u8, &'static str);

const ROWS: &[Row] = &[
    (67_108_864, 65_537, 0, "|a  |\n"),
    (67_108_865, 65_537, 6, ""),
    (67_108_864, 16, 0, "|a  |\n"),
    (67_108_865, 16, 6, ""),
    (4, 1, 0, "|a  |\n"),
];

fn is_drawn(alloc: Global, words: &[String], row: &Row) -> Result<bool, NoMemory> {
    let (bytes, piece, status, drawn) = *row;
    let mut printed = blank(alloc)?;
    draw(alloc, words, bytes, piece, &mut printed);
    Ok(printed.status == status && printed.out.held() == drawn.as_bytes())
}

fn draws(alloc: Global, row: &Row) -> Result<bool, NoMemory> {
    let words = words_of(alloc, &["screen", "1", "3"])?;
    is_drawn(alloc, words.as_slice(), row)
}

fn check(by: &impl Abort, made: Result<bool, NoMemory>, row: &Row) {
    let (bytes, piece, ..) = *row;
    assert!(by; matches!(made, Ok(true)), "{bytes} in {piece}");
}

#[test]
fn pieces_are_counted_as_bytes(rt: HostRuntime) {
    for row in ROWS {
        check(&rt, draws(rt.alloc(), row), row);
    }
}
