//! A row store: cells are written, rows are turned, rotated and cut, and the stored rows are compared.
ghost use Rattle.std.specs.Prelude.{◌≡◌, ◌<◌};

use crate::tests::checks::check_made;
use std::alloc::Global;
use std::marker::Brand;
use std::sync::ledger::{Blank, Ledger};
use vt_base::{NoMemory, Size};
use vt_cells::Cell;
use vt_grid::rows::{RowStore, Steps};

// A row: how many of its cells are stored, and the codes of its cells.
type Row = (u8, [u32; 3]);

const AB: Row = (2, [0x61, 0x62, 0x20]);

const C: Row = (1, [0x63, 0x20, 0x20]);

const EMPTY: Row = (0, [0x20, 0x20, 0x20]);

const A: Row = (1, [0x61, 0x2D, 0x2D]);

fn letter(code: u32) -> Cell {
    Cell { code, attr: 7 }
}

fn has_row(store: &RowStore, y: u8, row: &Row) -> bool {
    let size = store.size();
    if y >= size.rows || size.cols != 3 || store.stored(y) != row.0 {
        return false;
    }
    for x in 0..3 {
        if store.at(y, x).code != row.1[usize::from(x)] {
            return false;
        }
    }
    true
}

fn has_rows(store: &RowStore, rows: [Row; 3]) -> bool {
    has_row(store, 0, &rows[0]) && has_row(store, 1, &rows[1]) && has_row(store, 2, &rows[2])
}

fn write<L: Ledger>(store: &mut RowStore, y: u8, x: u8, code: u32, steps: &mut Steps<L>) {
    let size = store.size();
    if y < size.rows && x < size.cols && x <= store.stored(y) {
        store.write(y, x, letter(code), steps);
    }
}

fn turn<L: Ledger>(store: &mut RowStore, n: u8, steps: &mut Steps<L>) {
    if n <= store.size().rows {
        store.turn(n, steps);
    }
}

fn rotate<L: Ledger>(store: &mut RowStore, top: u8, bottom: u8, n: u8, steps: &mut Steps<L>) {
    if top <= bottom && bottom < store.size().rows && n <= bottom - top {
        store.rotate(top, bottom, n, steps);
    }
}

fn cut<L: Ledger>(store: &mut RowStore, y: u8, len: u8, code: u32, steps: &mut Steps<L>) {
    if y < store.size().rows && len <= store.stored(y) {
        store.cut(y, len, letter(code), steps);
    }
}

// Whether a store of three rows has the right ones after each call in turn.
fn is_driven<L: Ledger>(store: &mut RowStore, steps: &mut Steps<L>) -> bool {
    write(store, 0, 0, 0x61, steps);
    write(store, 0, 1, 0x62, steps);
    write(store, 2, 0, 0x63, steps);
    let is_written = has_rows(store, [AB, EMPTY, C]);
    turn(store, 1, steps);
    let is_turned = has_rows(store, [EMPTY, C, AB]);
    rotate(store, 1, 2, 1, steps);
    let is_rotated = has_rows(store, [EMPTY, AB, C]);
    cut(store, 1, 1, 0x2D, steps);
    is_written && is_turned && is_rotated && has_rows(store, [EMPTY, A, C])
}

fn driven<L: Ledger>(alloc: Global, blank: Blank) -> Result<bool, NoMemory>
    requires name { blank.name ≡ L.name }
    requires parts { blank.parts ≡ L.parts }
    requires some { 0 < blank.parts }
{
    let mut steps = Steps::<L>::open(blank);
    let mut store = RowStore::blank(alloc, Size { rows: 3, cols: 3 }, letter(0x20))?;
    Ok(is_driven(&mut store, &mut steps))
}

#[test]
fn rows_are_written_and_moved(rt: HostRuntime) {
    let made = driven::<Brand>(rt.alloc(), Blank::new(1));
    check_made(&rt, made, "rows of a store");
}
