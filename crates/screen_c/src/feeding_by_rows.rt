//! Runs text on a screen, and keeps the rows that fall out at its top.
ghost use Rattle.std.specs.List.{flat_map};
ghost use Rattle.std.specs.Prelude.{◌≡◌, ◌<◌, ◌≤◌, ◌++◌, List, map, IfNone, IfSome, None, Some};
ghost use Rattle.c_calls.specs.Codes.{NOTHING, NO_ROOM, OK};
ghost use Rattle.c_calls.specs.Places.{filled};
ghost use Rattle.c_cells.specs.Cells.{c_cell};
ghost use Rattle.c_cells.specs.declared.vt_cell.VtCell.{VtCell};
ghost use Rattle.screen_c.specs.Fed.{IsFedByRows, rows_fitting};
ghost use Rattle.screen_c.specs.Held.{with_emu};
ghost use Rattle.vt_canvas.specs.Screen.{Screen};
ghost use Rattle.vt_units.specs.Run.{Reached};

use crate::feeding::put_effect;
use crate::{ScreenHandle, VtFed, VtOut};
use c_calls::code;
use c_cells::VtCell;
use std::alloc::Global;
use vt_cells::Cell;
use vt_screen::{Emu, FallenRows, SideEffect};

/// Does what `vt_nonnull_screen_feed` does, and writes the cells of the rows that fall out at the top of the screen
/// to `cells`, row after row. It ends also if fewer than two rows have room.
#[unsafe(no_mangle)]
pub extern "C" fn vt_nonnull_screen_feed_rows(
    handle: &mut ScreenHandle,
    bytes: &[u8],
    outs: &mut [VtOut],
    cells: &mut [VtCell],
    fed: &mut VtFed,
    alloc: Global,
) -> u8
    ensures nothing { IfNone handle.old.value ((result ≡ NOTHING) × (handle.new.value ≡ None)
        × (outs.new ≡ outs.old) × (cells.new ≡ cells.old) × (fed.new ≡ fed.old)) }
    ensures room { IfSome handle.old.value (λ o. rows_fitting cells.old o.emu < 2
        → (result ≡ NO_ROOM) × (handle.new.value ≡ Some o)
        × (outs.new ≡ outs.old) × (cells.new ≡ cells.old) × (fed.new ≡ fed.old)) }
    ensures screen { IfSome handle.old.value (λ o. 2 ≤ rows_fitting cells.old o.emu
        → (result ≡ OK) × ((end : Reached Screen) × (handle.new.value ≡ Some (with_emu end o))
        × IsFedByRows o.emu bytes.now outs.old outs.new cells.old cells.new fed.new end)) }
{
    match handle.take(alloc) {
        None => code::NOTHING,
        Some(owned) => {
            let mut owned = owned;
            let most = rows_fitting(&owned.emu, cells);
            let fits = 2 <= most;
            if fits {
                *fed = feed_by_rows(&mut owned.emu, bytes, outs, cells, most);
            }
            handle.put(owned);
            if fits { code::OK } else { code::NO_ROOM }
        }
    }
}

// How many rows have room in the places.
fn rows_fitting(emu: &Emu, places: &[VtCell]) -> usize
    ensures { result ≡ rows_fitting places.now emu.now }
{
    let _ = emu.state();
    places.len() / usize::from(emu.grid().size().cols)
}

// Runs a text up to its end, or until the places for side effects are full, or fewer than two rows have room.
fn feed_by_rows(
    emu: &mut Emu,
    b: &[u8],
    places: &mut [VtOut],
    cells: &mut [VtCell],
    most: usize,
) -> VtFed
    requires { most ≡ rows_fitting cells.old emu.old }
    ensures { IsFedByRows emu.old b.now places.old places.new cells.old cells.new result emu.new }
{
    let mut effect = SideEffect::new();
    let mut fallen = FallenRows::new();
    let mut at = 0;
    let mut n = 0;
    let mut filled = 0;
    let mut left = most;
    while n < places.len() && at < b.len() && 2 <= left {
        at += emu.write_until_row(&b[at..], &mut effect, &mut fallen);
        n += put_effect(&effect, places, n);
        filled = put_rows(&fallen, cells, filled);
        left -= fallen.count();
    }
    VtFed {
        taken: at,
        outs: n,
        rows: most - left,
        spare: [0; 1],
    }
}

// Writes the cells of the rows into the places from place n on, as many as there is room for. Returns the place
// after them: what is written there comes behind these cells.
fn put_rows(rows: &FallenRows, places: &mut [VtCell], n: usize) -> usize
    ensures { (more : List VtCell) → filled result more places.new
        ≡ filled n (flat_map (map c_cell) rows.now ++ more) places.old }
{
    let mut n = n;
    for y in 0..rows.count() {
        n = put_row(rows.row(y), places, n);
    }
    n
}

// The same for the cells of one row. `get` copies a cell as one number, so the compiler writes several at once.
#[inline(never)]
fn put_row(cells: &[Cell], places: &mut [VtCell], n: usize) -> usize
    ensures { (more : List VtCell) → filled result more places.new
        ≡ filled n (map c_cell cells.now ++ more) places.old }
{
    if places.len() <= n {
        return n;
    }
    let count = cells.len().min(places.len() - n);
    for i in 0..count {
        places[n + i] = VtCell::of(cells.get(i).copied().unwrap());
    }
    n + count
}
