//! The rows that changed since the cells were marked.
ghost use Rattle.std.specs.Prelude.{◌≡◌, ◌⊎◌, ◌<◌, IfNone, IfSome, IsTrue, None, Some};
ghost use Rattle.c_calls.specs.Codes.{NOTHING, NO_MEMORY, OK};
ghost use Rattle.c_calls.specs.Places.{with_items};
ghost use Rattle.screen_c.specs.Held.{with_mark};
ghost use Rattle.screen_c.specs.Loans.{IsSameLoan};
ghost use Rattle.screen_c.specs.Marks.{changed_flags, is_as_marked, is_changed, is_same_size};
ghost use Rattle.vt_redraw.specs.Redraw.{IsSameSize};
ghost use Rattle.c_calls.specs.Flags.{c_flag};

use crate::{OwnedScreen, ScreenHandle, ScreenLoan};
use c_calls::{change, code, read};
use std::alloc::Global;
use vt_grid::Grid;
use vt_screen::BLANK;

/// Marks the present cells, in place of those of an earlier mark.
#[unsafe(no_mangle)]
pub extern "C" fn vt_screen_mark(handle: &mut ScreenHandle, alloc: Global) -> u8
    ensures nothing { IfNone handle.old.value ((result ≡ NOTHING) × (handle.new.value ≡ None)) }
    ensures mark { IfSome handle.old.value (λ o.
        ((result ≡ OK) × (handle.new.value ≡ Some (with_mark o)))
        ⊎ ((result ≡ NO_MEMORY) × (handle.new.value ≡ Some o))) }
{
    change!(handle, alloc, owned => owned.set_mark(alloc))
}

/// Writes whether each row differs from the marked cells, from the top: 1 or 0.
#[unsafe(no_mangle)]
pub extern "C" fn vt_lent_screen_changed(loan: &mut ScreenLoan, rows: &mut [u8]) -> u8
    ensures same { IsSameLoan loan.old loan.new }
    ensures nothing { IfNone loan.old.value ((result ≡ NOTHING) × (rows.new ≡ rows.old)) }
    ensures rows { IfSome loan.old.value (λ o. (result ≡ OK)
        × (rows.new ≡ with_items (changed_flags o.mark o.emu.state.grid) rows.old)) }
{
    read!(loan, screen => {
        put_flags(&screen.mark, screen.emu.grid(), rows);
        code::OK
    })
}

impl OwnedScreen {
    fn set_mark(&mut self, alloc: Global) -> u8
        ensures { ((result ≡ OK) × (self.new ≡ with_mark self.old)) ⊎ ((result ≡ NO_MEMORY) × (self.new ≡ self.old)) }
    {
        if let Some(mark) = &mut self.mark {
            if has_same_size(mark, self.emu.grid()) {
                mark.copy_from(self.emu.grid());
                return code::OK;
            }
        }
        match Grid::blank(alloc, self.emu.grid().size(), BLANK) {
            Err(_) => code::NO_MEMORY,
            Ok(fresh) => {
                let mut fresh = fresh;
                fresh.copy_from(self.emu.grid());
                self.mark = Some(fresh);
                code::OK
            }
        }
    }
}

// Writes whether each row differs from the marked cells into the first places.
fn put_flags(mark: &Option<Grid>, grid: &Grid, places: &mut [u8])
    ensures { places.new ≡ with_items (changed_flags mark.now grid.now) places.old }
{
    let rows = usize::from(grid.size().rows);
    let count = rows.min(places.len());
    let mut n = 0;
    while n < count {
        let answer = flag(is_changed(mark, grid, n as u8));
        places[n] = answer;
        n += 1;
    }
}

fn is_changed(mark: &Option<Grid>, grid: &Grid, y: u8) -> bool
    requires { y < grid.now.rows }
    ensures { result ≡ is_changed mark.now grid.now y }
{
    match mark {
        None => true,
        Some(mark) => !is_as_marked(mark, grid, y),
    }
}

fn flag(test: bool) -> u8
    ensures { result ≡ c_flag test }
{
    u8::from(test)
}

// Whether the row equals the marked one.
fn is_as_marked(mark: &Grid, grid: &Grid, y: u8) -> bool
    requires { y < grid.now.rows }
    ensures { result ≡ is_as_marked mark.now grid.now y }
{
    has_same_size(mark, grid) && mark.is_row_same(grid, y)
}

/// Whether the marked cells have the size of the screen.
pub(crate) fn has_same_size(mark: &Grid, grid: &Grid) -> bool
    ensures test { result ≡ is_same_size mark.now grid.now }
    ensures same { IsTrue result → IsSameSize mark.now grid.now }
{
    let old = mark.size();
    let size = grid.size();
    old.rows == size.rows && old.cols == size.cols
}
