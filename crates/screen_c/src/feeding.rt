//! Runs text on a screen.
ghost use Rattle.std.specs.Prelude.{◌≡◌, ◌<◌, ◌≤◌, ◌+◌, ◌++◌, drop, length, map, take, IfNone, IfSome, None, Some};
ghost use Rattle.c_calls.specs.Codes.{NOTHING, OK};
ghost use Rattle.screen_c.specs.Fed.{IsFed};
ghost use Rattle.screen_c.specs.Held.{with_emu};
ghost use Rattle.screen_c.specs.Shown.{c_out};
ghost use Rattle.vt_screen.specs.Run.{after, outs_of_option};
ghost use Rattle.vt_canvas.specs.Screen.{Screen};
ghost use Rattle.vt_units.specs.Run.{Reached};

use crate::{ScreenHandle, VtFed, VtOut};
use c_calls::code;
use std::alloc::Global;
use vt_screen::{Emu, SideEffect};

/// Runs a text up to its end, or until `outs` is full, and writes its reports, bells and requests to `outs`.
#[unsafe(no_mangle)]
pub extern "C" fn vt_nonnull_screen_feed(
    handle: &mut ScreenHandle,
    bytes: &[u8],
    outs: &mut [VtOut],
    fed: &mut VtFed,
    alloc: Global,
) -> u8
    ensures nothing { IfNone handle.old.value ((result ≡ NOTHING) × (handle.new.value ≡ None)
        × (outs.new ≡ outs.old) × (fed.new ≡ fed.old)) }
    ensures screen { IfSome handle.old.value (λ o. (result ≡ OK)
        × ((end : Reached Screen) × (handle.new.value ≡ Some (with_emu end o))
        × IsFed o.emu bytes.now outs.old outs.new fed.new end)) }
{
    match handle.take(alloc) {
        None => code::NOTHING,
        Some(owned) => {
            let mut owned = owned;
            *fed = feed(&mut owned.emu, bytes, outs);
            handle.put(owned);
            code::OK
        }
    }
}

/// Runs a whole text, and drops its reports, bells and requests.
#[unsafe(no_mangle)]
pub extern "C" fn vt_nonnull_screen_write(
    handle: &mut ScreenHandle,
    bytes: &[u8],
    alloc: Global,
) -> u8
    ensures nothing { IfNone handle.old.value ((result ≡ NOTHING) × (handle.new.value ≡ None)) }
    ensures screen { IfSome handle.old.value (λ o. (result ≡ OK)
        × (handle.new.value ≡ Some (with_emu (after o.emu bytes.now) o))) }
{
    match handle.take(alloc) {
        None => code::NOTHING,
        Some(owned) => {
            let mut owned = owned;
            owned.emu.write(bytes);
            handle.put(owned);
            code::OK
        }
    }
}

// Runs a text up to its end, or until the places are full.
fn feed(emu: &mut Emu, b: &[u8], places: &mut [VtOut]) -> VtFed
    ensures { IsFed emu.old b.now places.old places.new result emu.new }
{
    let mut effect = SideEffect::new();
    let mut at = 0;
    let mut n = 0;
    while n < places.len() && at < b.len() {
        at += emu.write_until(&b[at..], &mut effect);
        n += put_effect(&effect, places, n);
    }
    VtFed {
        taken: at,
        outs: n,
        rows: 0,
        spare: [0; 1],
    }
}

/// Writes a side effect, if there is one, into a place. Returns the number of places that were written.
pub(crate) fn put_effect(effect: &SideEffect, places: &mut [VtOut], n: usize) -> usize
    requires room { n < length places.old }
    ensures count { result ≡ length (outs_of_option effect.now) }
    ensures one { result ≤ 1 }
    ensures size { length places.new ≡ length places.old }
    ensures places { places.new ≡ take n places.old ++ (map c_out (outs_of_option effect.now)
        ++ drop (n + length (outs_of_option effect.now)) places.old) }
{
    match effect.get() {
        None => 0,
        Some(out) => {
            places[n] = VtOut::of(out);
            1
        }
    }
}
