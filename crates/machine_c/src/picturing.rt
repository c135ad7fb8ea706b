//! A console as a picture.
ghost use Rattle.std.specs.Prelude.{◌≡◌, IfNone, IfSome, MatchOption};
ghost use Rattle.c_calls.specs.Codes.{NOTHING, RANGE};
ghost use Rattle.c_calls.specs.Text.{HandsOver};
ghost use Rattle.machine_c.specs.Loans.{IsSameLoan};
ghost use Rattle.machine_c.specs.Redrawn.{Refuses};
ghost use Rattle.machine_c.specs.Shown.{console_at};
ghost use Rattle.vt_picture.specs.Picture.{picture_text};
ghost use Rattle.vt_world.specs.Terminals.{emu_of};

use crate::loan::MachineLoan;
use crate::rows::screen_of;
use c_calls::{code, hand_over, read};
use machine::Machine;
use std::alloc::Global;
use vt_picture::picture;
use vt_screen::Emu;

/// The screen of a console as a picture in SVG 1.1, in UTF-8. This project's own.
#[unsafe(no_mangle)]
pub extern "C" fn vt_lent_machine_picture(
    loan: &mut MachineLoan,
    n: u32,
    text: &mut [u8],
    count: &mut usize,
    alloc: Global,
) -> u8
    ensures same { IsSameLoan loan.old loan.new }
    ensures nothing { IfNone loan.old.value ((result ≡ NOTHING) × (text.new ≡ text.old) × (count.new ≡ count.old)) }
    ensures text { IfSome loan.old.value (λ m. MatchOption (emu_of (console_at m.world n))
        (Refuses text.old text.new count.old count.new RANGE result)
        (λ emu. HandsOver (picture_text emu.state) text.old text.new count.old count.new result)) }
{
    read!(loan, machine => picture_console(machine, alloc, n, text, count))
}

fn picture_console(
    machine: &Machine,
    alloc: Global,
    n: u32,
    text: &mut [u8],
    count: &mut usize,
) -> u8
    ensures { MatchOption (emu_of (console_at machine.now.world n))
        (Refuses text.old text.new count.old count.new RANGE result)
        (λ emu. HandsOver (picture_text emu.state) text.old text.new count.old count.new result) }
{
    match screen_of(machine, n) {
        None => code::RANGE,
        Some(emu) => picture_screen(emu, alloc, text, count),
    }
}

fn picture_screen(emu: &Emu, alloc: Global, text: &mut [u8], count: &mut usize) -> u8
    ensures { HandsOver (picture_text emu.now.state) text.old text.new count.old count.new result }
{
    match picture(alloc, emu) {
        Err(_) => code::NO_MEMORY,
        Ok(bytes) => hand_over(bytes.as_slice(), text, count),
    }
}
