//! A console as a text that draws its screen again.
ghost use Rattle.std.specs.Prelude.{◌≡◌, IfNone, IfSome, MatchOption};
ghost use Rattle.c_calls.specs.Codes.{NOTHING, RANGE};
ghost use Rattle.machine_c.specs.Loans.{IsSameLoan};
ghost use Rattle.machine_c.specs.Redrawn.{Draws, DrawsAs, DrawsNear, Refuses};
ghost use Rattle.machine_c.specs.Shown.{console_at};
ghost use Rattle.vt_world.specs.Terminals.{emu_of};

use crate::loan::MachineLoan;
use crate::rows::screen_of;
use c_calls::{code, hand_over, read};
use machine::Machine;
use std::alloc::Global;
use vt_redraw::{redraw, redraw_near, redrawable};
use vt_screen::Emu;

/// The text that draws the screen of a console again on any screen of its size.
#[unsafe(no_mangle)]
pub extern "C" fn vt_lent_machine_redraw(
    loan: &mut MachineLoan,
    n: u32,
    text: &mut [u8],
    count: &mut usize,
    alloc: Global,
) -> u8
    ensures same { IsSameLoan loan.old loan.new }
    ensures nothing { IfNone loan.old.value ((result ≡ NOTHING) × (text.new ≡ text.old) × (count.new ≡ count.old)) }
    ensures text { IfSome loan.old.value (λ m. MatchOption (emu_of (console_at m.world n))
        (Refuses text.old text.new count.old count.new RANGE result)
        (λ emu. Draws emu.state text.old text.new count.old count.new result)) }
{
    read!(loan, machine => redraw_console(machine, alloc, n, false, text, count))
}

/// The text that draws the nearest drawable screen on any screen of its size.
#[unsafe(no_mangle)]
pub extern "C" fn vt_lent_machine_redraw_near(
    loan: &mut MachineLoan,
    n: u32,
    text: &mut [u8],
    count: &mut usize,
    alloc: Global,
) -> u8
    ensures same { IsSameLoan loan.old loan.new }
    ensures nothing { IfNone loan.old.value ((result ≡ NOTHING) × (text.new ≡ text.old) × (count.new ≡ count.old)) }
    ensures text { IfSome loan.old.value (λ m. MatchOption (emu_of (console_at m.world n))
        (Refuses text.old text.new count.old count.new RANGE result)
        (λ emu. DrawsNear emu.state text.old text.new count.old count.new result)) }
{
    read!(loan, machine => redraw_console(machine, alloc, n, true, text, count))
}

fn redraw_console(
    machine: &Machine,
    alloc: Global,
    n: u32,
    near: bool,
    text: &mut [u8],
    count: &mut usize,
) -> u8
    ensures { MatchOption (emu_of (console_at machine.now.world n))
        (Refuses text.old text.new count.old count.new RANGE result)
        (λ emu. DrawsAs near emu.state text.old text.new count.old count.new result) }
{
    match screen_of(machine, n) {
        None => code::RANGE,
        Some(emu) if near => redraw_screen_near(emu, alloc, text, count),
        Some(emu) => redraw_screen(emu, alloc, text, count),
    }
}

fn redraw_screen(emu: &Emu, alloc: Global, text: &mut [u8], count: &mut usize) -> u8
    ensures { Draws emu.now.state text.old text.new count.old count.new result }
{
    if !redrawable(emu) {
        return code::NOT_DRAWABLE;
    }
    match redraw(alloc, emu) {
        Err(_) => code::NO_MEMORY,
        Ok(bytes) => hand_over(bytes.as_slice(), text, count),
    }
}

fn redraw_screen_near(emu: &Emu, alloc: Global, text: &mut [u8], count: &mut usize) -> u8
    ensures { DrawsNear emu.now.state text.old text.new count.old count.new result }
{
    match redraw_near(alloc, emu) {
        Err(_) => code::NO_MEMORY,
        Ok(bytes) => hand_over(bytes.as_slice(), text, count),
    }
}
