//! Makes, frees and resizes a screen.
ghost use Rattle.std.specs.Prelude.{◌≡◌, ◌⊎◌, IfNone, IfOk, IfSome, None, Some};
ghost use Rattle.c_calls.specs.Codes.{MADE, NOTHING, NO_MEMORY, OK, RANGE};
ghost use Rattle.screen_c.specs.Held.{new_screen, unmarked};
ghost use Rattle.screen_c.specs.Sizes.{IsSize};
ghost use Rattle.vt_screen.specs.Tape.{with_change};
ghost use Rattle.vt_canvas.specs.Change.{resize};

use crate::{OwnedScreen, ScreenHandle};
use c_calls::{change, code};
use std::alloc::Global;
use vt_base::{NoMemory, Size};
use vt_grid::Grid;
use vt_screen::{BLANK, Emu};

/// Makes a start screen of this many rows and columns, 1 to 255 each.
#[unsafe(no_mangle)]
pub extern "C" fn vt_screen_new(
    handle: &mut ScreenHandle,
    rows: u32,
    cols: u32,
    alloc: Global,
) -> u8
    ensures made { IfSome handle.old.value (λ o. (result ≡ MADE) × (handle.new.value ≡ Some o)) }
    ensures range { IfNone handle.old.value (¬ (IsSize rows cols) → (result ≡ RANGE) × (handle.new.value ≡ None)) }
    ensures fine { IfNone handle.old.value (IsSize rows cols
        → ((result ≡ OK) × (handle.new.value ≡ Some (new_screen rows cols)))
        ⊎ ((result ≡ NO_MEMORY) × (handle.new.value ≡ None))) }
{
    match handle.take(alloc) {
        Some(owned) => {
            handle.put(owned);
            code::MADE
        }
        None => match size_of(rows, cols) {
            None => code::RANGE,
            Some(size) => match OwnedScreen::boxed(alloc, size) {
                Err(_) => code::NO_MEMORY,
                Ok(owned) => {
                    handle.put(owned);
                    code::OK
                }
            },
        },
    }
}

/// Frees the handle's screen, if it has one.
#[unsafe(no_mangle)]
pub extern "C" fn vt_screen_free(handle: &mut ScreenHandle, alloc: Global)
    ensures { handle.new.value ≡ None }
{
    let _ = handle.take(alloc);
}

/// Gives the screen this many rows and columns, 1 to 255 each. The pending text stays; the mark goes.
#[unsafe(no_mangle)]
pub extern "C" fn vt_screen_resize(
    handle: &mut ScreenHandle,
    rows: u32,
    cols: u32,
    alloc: Global,
) -> u8
    ensures nothing { IfNone handle.old.value ((result ≡ NOTHING) × (handle.new.value ≡ None)) }
    ensures range { IfSome handle.old.value (λ o. ¬ (IsSize rows cols)
        → (result ≡ RANGE) × (handle.new.value ≡ Some o)) }
    ensures fine { IfSome handle.old.value (λ o. IsSize rows cols
        → ((result ≡ OK)
        × (handle.new.value ≡ Some (unmarked (with_change (resize rows cols) o.emu))))
        ⊎ ((result ≡ NO_MEMORY) × (handle.new.value ≡ Some o))) }
{
    change!(handle, alloc, owned => owned.resize(alloc, rows, cols))
}

impl OwnedScreen {
    // A start screen of this size, in a block of its own.
    fn boxed(alloc: Global, size: Size) -> Result<Box<OwnedScreen>, NoMemory>
        ensures { IfOk result (λ owned. owned.value ≡ new_screen size.rows size.cols) }
    {
        let grid = Grid::blank(alloc, size, BLANK)?;
        let owned = Box::new(
            alloc,
            OwnedScreen {
                emu: Emu::new(grid),
                mark: None,
            },
        )?;
        Ok(owned)
    }

    fn resize(&mut self, alloc: Global, rows: u32, cols: u32) -> u8
        ensures range { ¬ (IsSize rows cols) → (result ≡ RANGE) × (self.new ≡ self.old) }
        ensures fine { IsSize rows cols
            → ((result ≡ OK) × (self.new ≡ unmarked (with_change (resize rows cols) self.old.emu)))
            ⊎ ((result ≡ NO_MEMORY) × (self.new ≡ self.old)) }
    {
        match size_of(rows, cols) {
            None => code::RANGE,
            Some(size) => match Grid::blank(alloc, size, BLANK) {
                Err(_) => code::NO_MEMORY,
                Ok(fresh) => {
                    let _ = self.emu.resize(fresh);
                    self.mark = None;
                    code::OK
                }
            },
        }
    }
}

// The numbers as a size, if both are 1 to 255.
fn size_of(rows: u32, cols: u32) -> Option<Size>
    ensures some { IfSome result (λ size. IsSize rows cols × (size.rows ≡ rows) × (size.cols ≡ cols)) }
    ensures none { IfNone result (¬ (IsSize rows cols)) }
{
    if rows < 1 || 255 < rows || cols < 1 || 255 < cols {
        return None;
    }
    Some(Size {
        rows: rows as u8,
        cols: cols as u8,
    })
}
