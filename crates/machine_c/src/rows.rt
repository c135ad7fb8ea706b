//! Reads the cells of a console.
ghost use Rattle.std.specs.List.{flat_map};
ghost use Rattle.std.specs.Prelude.{◌≡◌, ◌<◌, ◌≤◌, ◌⊎◌, IfNone, IfSome, MatchOption, map, option_copied};
ghost use Rattle.c_calls.specs.Codes.{NOTHING, OK, RANGE};
ghost use Rattle.c_calls.specs.Places.{with_items};
ghost use Rattle.c_cells.specs.Cells.{c_cell};
ghost use Rattle.machine_c.specs.Loans.{IsSameLoan};
ghost use Rattle.machine_c.specs.Shown.{console_at};
ghost use Rattle.vt_grid.specs.Grid.{row_at};
ghost use Rattle.vt_world.specs.Terminals.{emu_of};

use crate::loan::MachineLoan;
use crate::numbers::console_of;
use c_calls::{code, read};
use c_cells::{VtCell, put_all, put_row};
use machine::Machine;
use vt_screen::Emu;

/// The cells of a row of a console from its left.
#[unsafe(no_mangle)]
pub extern "C" fn vt_lent_machine_row(
    loan: &mut MachineLoan,
    n: u32,
    row: u32,
    cells: &mut [VtCell],
) -> u8
    ensures same { IsSameLoan loan.old loan.new }
    ensures nothing { IfNone loan.old.value ((result ≡ NOTHING) × (cells.new ≡ cells.old)) }
    ensures cells { IfSome loan.old.value (λ m. MatchOption (emu_of (console_at m.world n))
        ((result ≡ RANGE) × (cells.new ≡ cells.old))
        (λ emu. ((result ≡ OK) × (row < emu.state.grid.rows)
        × (cells.new ≡ with_items (map c_cell (row_at emu.state.grid row)) cells.old))
        ⊎ ((result ≡ RANGE) × (emu.state.grid.rows ≤ row) × (cells.new ≡ cells.old)))) }
{
    read!(loan, machine => read_row(machine, n, row, cells))
}

/// All cells of a console, row by row from the top left.
#[unsafe(no_mangle)]
pub extern "C" fn vt_lent_machine_cells(loan: &mut MachineLoan, n: u32, cells: &mut [VtCell]) -> u8
    ensures same { IsSameLoan loan.old loan.new }
    ensures nothing { IfNone loan.old.value ((result ≡ NOTHING) × (cells.new ≡ cells.old)) }
    ensures cells { IfSome loan.old.value (λ m. MatchOption (emu_of (console_at m.world n))
        ((result ≡ RANGE) × (cells.new ≡ cells.old))
        (λ emu. (result ≡ OK)
        × (cells.new ≡ with_items (flat_map (map c_cell) emu.state.grid.cells) cells.old))) }
{
    read!(loan, machine => read_all(machine, n, cells))
}

fn read_row(machine: &Machine, n: u32, row: u32, cells: &mut [VtCell]) -> u8
    ensures { MatchOption (emu_of (console_at machine.now.world n))
        ((result ≡ RANGE) × (cells.new ≡ cells.old))
        (λ emu. ((result ≡ OK) × (row < emu.state.grid.rows)
        × (cells.new ≡ with_items (map c_cell (row_at emu.state.grid row)) cells.old))
        ⊎ ((result ≡ RANGE) × (emu.state.grid.rows ≤ row) × (cells.new ≡ cells.old))) }
{
    match screen_of(machine, n) {
        None => code::RANGE,
        Some(emu) => put_row(emu.grid(), row, cells),
    }
}

fn read_all(machine: &Machine, n: u32, cells: &mut [VtCell]) -> u8
    ensures { MatchOption (emu_of (console_at machine.now.world n))
        ((result ≡ RANGE) × (cells.new ≡ cells.old))
        (λ emu. (result ≡ OK)
        × (cells.new ≡ with_items (flat_map (map c_cell) emu.state.grid.cells) cells.old)) }
{
    match screen_of(machine, n) {
        None => code::RANGE,
        Some(emu) => {
            put_all(emu.grid(), cells);
            code::OK
        }
    }
}

/// The screen of the console of this number, if there is one and it is allocated.
pub(crate) fn screen_of(machine: &Machine, n: u32) -> Option<&Emu>
    ensures { option_copied result ≡ emu_of (console_at machine.now.world n) }
{
    match console_of(n) {
        None => None,
        Some(c) => machine.world().screen(c),
    }
}
