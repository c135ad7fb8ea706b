//! The colours and the user's table of a screen.
ghost use Rattle.std.specs.Prelude.{◌≡◌, ◌<◌, ◌≤◌, ◌⊎◌, map, slice_set, IfNone, IfSome, None, Some};
ghost use Rattle.c_calls.specs.Codes.{NOTHING, OK, RANGE};
ghost use Rattle.c_calls.specs.Places.{with_items};
ghost use Rattle.screen_c.specs.Held.{with_emu};
ghost use Rattle.screen_c.specs.Loans.{IsSameLoan};
ghost use Rattle.screen_c.specs.Shown.{c_colour};
ghost use Rattle.vt_screen.specs.Tape.{with_change};
ghost use Rattle.vt_canvas.specs.Change.{palette, user_map};

use crate::{ScreenHandle, ScreenLoan, VtColour};
use c_calls::{change, code, read};
use std::alloc::Global;

/// The colours of the numbers 0 to 15.
#[unsafe(no_mangle)]
pub extern "C" fn vt_lent_screen_palette(loan: &mut ScreenLoan, colours: &mut [VtColour]) -> u8
    ensures same { IsSameLoan loan.old loan.new }
    ensures nothing { IfNone loan.old.value ((result ≡ NOTHING) × (colours.new ≡ colours.old)) }
    ensures colours { IfSome loan.old.value (λ o. (result ≡ OK)
        × (colours.new ≡ with_items (map c_colour o.emu.state.state.palette) colours.old)) }
{
    read!(loan, screen => {
        put_colours(screen.emu.state().palette.as_slice(), colours);
        code::OK
    })
}

// Writes the colours into the first places.
fn put_colours(rgbs: &[(u8, u8, u8)], places: &mut [VtColour])
    ensures { places.new ≡ with_items (map c_colour rgbs.now) places.old }
{
    let count = places.len().min(rgbs.len());
    let mut n = 0;
    while n < count {
        places[n] = VtColour::of(rgbs[n]);
        n += 1;
    }
}

/// Sets the colour of a number.
#[unsafe(no_mangle)]
pub extern "C" fn vt_screen_set_colour(
    handle: &mut ScreenHandle,
    number: u32,
    red: u8,
    green: u8,
    blue: u8,
    alloc: Global,
) -> u8
    ensures nothing { IfNone handle.old.value ((result ≡ NOTHING) × (handle.new.value ≡ None)) }
    ensures colour { IfSome handle.old.value (λ o. let old = o.emu.state.state.palette in
        ((result ≡ OK) × (number < 16)
        × (handle.new.value ≡ Some (with_emu
        (with_change (palette (slice_set old number (red, green, blue))) o.emu) o)))
        ⊎ ((result ≡ RANGE) × (16 ≤ number) × (handle.new.value ≡ Some o))) }
{
    change!(handle, alloc, owned => {
        let within = number < 16;
        if within {
            owned
                .emu
                .palette_mut()
                .set(number as u8, (red, green, blue));
        }
        if within { code::OK } else { code::RANGE }
    })
}

/// Sets the user's table: a code point for each byte.
#[unsafe(no_mangle)]
pub extern "C" fn vt_screen_set_user(
    handle: &mut ScreenHandle,
    words: &[u16; 256],
    alloc: Global,
) -> u8
    ensures nothing { IfNone handle.old.value ((result ≡ NOTHING) × (handle.new.value ≡ None)) }
    ensures table { IfSome handle.old.value (λ o. (result ≡ OK)
        × (handle.new.value ≡ Some (with_emu (with_change (user_map words.now) o.emu) o))) }
{
    change!(handle, alloc, owned => {
        owned.emu.set_user(words);
        code::OK
    })
}
