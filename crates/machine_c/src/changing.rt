//! A console as a text for a terminal that shows other cells.
ghost use Rattle.std.specs.Prelude.{◌≡◌, ◌≤◌, length, IfNone, IfOk, IfSome, IsTrue, MatchOption};
ghost use Rattle.c_calls.specs.Codes.{NOTHING, RANGE};
ghost use Rattle.machine_c.specs.Cells.{AreCellsOf, grid_of};
ghost use Rattle.machine_c.specs.Loans.{IsSameLoan};
ghost use Rattle.machine_c.specs.Redrawn.{DrawsAsFrom, DrawsFrom, DrawsNearFrom, DrawsOver, Refuses};
ghost use Rattle.machine_c.specs.Shown.{console_at};
ghost use Rattle.vt_redraw.specs.Drawable.{is_redrawable};
ghost use Rattle.vt_redraw.specs.Lengths.{redraw_most};
ghost use Rattle.vt_redraw.specs.Near.{near};
ghost use Rattle.vt_redraw.specs.Redraw.{changes_of};
ghost use Rattle.vt_world.specs.Terminals.{emu_of};

use crate::loan::MachineLoan;
use crate::rows::screen_of;
use crate::shown_cells::{are_cells_of, grid_of};
use c_calls::{code, hand_over, read};
use c_cells::VtCell;
use machine::Machine;
use std::alloc::Global;
use vt_base::{Bytes, NoMemory};
use vt_redraw::{redraw_changes, redraw_changes_near, redrawable};
use vt_screen::Emu;

/// The text that draws the screen of a console on a terminal of its size that shows these cells, each row of so many
/// columns.
#[unsafe(no_mangle)]
pub extern "C" fn vt_lent_machine_redraw_changes(
    loan: &mut MachineLoan,
    n: u32,
    shown: &[VtCell],
    cols: u32,
    text: &mut [u8],
    count: &mut usize,
    alloc: Global,
) -> u8
    ensures same { IsSameLoan loan.old loan.new }
    ensures nothing { IfNone loan.old.value ((result ≡ NOTHING) × (text.new ≡ text.old) × (count.new ≡ count.old)) }
    ensures text { IfSome loan.old.value (λ m. MatchOption (emu_of (console_at m.world n))
        (Refuses text.old text.new count.old count.new RANGE result)
        (λ emu. DrawsFrom emu.state shown.now cols text.old text.new count.old count.new result)) }
{
    read!(loan, machine => change_console(machine, alloc, n, false, shown, cols, text, count))
}

/// The text that draws the nearest drawable screen on a terminal of its size that shows these cells.
#[unsafe(no_mangle)]
pub extern "C" fn vt_lent_machine_redraw_changes_near(
    loan: &mut MachineLoan,
    n: u32,
    shown: &[VtCell],
    cols: u32,
    text: &mut [u8],
    count: &mut usize,
    alloc: Global,
) -> u8
    ensures same { IsSameLoan loan.old loan.new }
    ensures nothing { IfNone loan.old.value ((result ≡ NOTHING) × (text.new ≡ text.old) × (count.new ≡ count.old)) }
    ensures text { IfSome loan.old.value (λ m. MatchOption (emu_of (console_at m.world n))
        (Refuses text.old text.new count.old count.new RANGE result)
        (λ emu. DrawsNearFrom emu.state shown.now cols text.old text.new count.old count.new result)) }
{
    read!(loan, machine => change_console(machine, alloc, n, true, shown, cols, text, count))
}

fn change_console(
    machine: &Machine,
    alloc: Global,
    n: u32,
    near: bool,
    shown: &[VtCell],
    cols: u32,
    text: &mut [u8],
    count: &mut usize,
) -> u8
    ensures { MatchOption (emu_of (console_at machine.now.world n))
        (Refuses text.old text.new count.old count.new RANGE result)
        (λ emu. DrawsAsFrom near emu.state shown.now cols text.old text.new count.old count.new result) }
{
    match screen_of(machine, n) {
        None => code::RANGE,
        Some(emu) if near => change_screen_near(emu, alloc, shown, cols, text, count),
        Some(emu) => change_screen(emu, alloc, shown, cols, text, count),
    }
}

fn change_screen(
    emu: &Emu,
    alloc: Global,
    shown: &[VtCell],
    cols: u32,
    text: &mut [u8],
    count: &mut usize,
) -> u8
    ensures { DrawsFrom emu.now.state shown.now cols text.old text.new count.old count.new result }
{
    if !are_cells_of(emu.grid(), shown, cols) {
        return code::RANGE;
    }
    if !redrawable(emu) {
        return code::NOT_DRAWABLE;
    }
    match changes(emu, alloc, shown) {
        Err(_) => code::NO_MEMORY,
        Ok(bytes) => hand_over(bytes.as_slice(), text, count),
    }
}

fn change_screen_near(
    emu: &Emu,
    alloc: Global,
    shown: &[VtCell],
    cols: u32,
    text: &mut [u8],
    count: &mut usize,
) -> u8
    ensures { DrawsNearFrom emu.now.state shown.now cols text.old text.new count.old count.new result }
{
    if !are_cells_of(emu.grid(), shown, cols) {
        return code::RANGE;
    }
    match changes_near(emu, alloc, shown) {
        Err(_) => code::NO_MEMORY,
        Ok(bytes) => hand_over(bytes.as_slice(), text, count),
    }
}

// The text that draws the screen on one with these cells.
fn changes(emu: &Emu, alloc: Global, shown: &[VtCell]) -> Result<Bytes, NoMemory>
    requires cells { AreCellsOf emu.now.state.grid shown.now emu.now.state.grid.cols }
    requires drawable { IsTrue (is_redrawable emu.now.state) }
    ensures text { IfOk result (λ text. let grid = emu.now.state.grid in
        text.bytes ≡ changes_of (grid_of grid.rows grid.cols shown.now) emu.now.state) }
    ensures again { IfOk result (λ text. let grid = emu.now.state.grid in
        DrawsOver (grid_of grid.rows grid.cols shown.now) emu.now.state text.bytes) }
    ensures short { IfOk result (λ text. length text.bytes
        ≤ redraw_most emu.now.state.grid.rows emu.now.state.grid.cols) }
{
    let old = grid_of(alloc, emu.grid().size(), shown)?;
    redraw_changes(alloc, &old, emu)
}

// The text that draws the nearest drawable screen on one with these cells.
fn changes_near(emu: &Emu, alloc: Global, shown: &[VtCell]) -> Result<Bytes, NoMemory>
    requires { AreCellsOf emu.now.state.grid shown.now emu.now.state.grid.cols }
    ensures text { IfOk result (λ text. let grid = emu.now.state.grid in
        text.bytes ≡ changes_of (grid_of grid.rows grid.cols shown.now) (near emu.now.state)) }
    ensures again { IfOk result (λ text. let grid = emu.now.state.grid in
        DrawsOver (grid_of grid.rows grid.cols shown.now) (near emu.now.state) text.bytes) }
    ensures short { IfOk result (λ text. length text.bytes
        ≤ redraw_most emu.now.state.grid.rows emu.now.state.grid.cols) }
{
    let old = grid_of(alloc, emu.grid().size(), shown)?;
    redraw_changes_near(alloc, &old, emu)
}
