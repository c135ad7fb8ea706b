//! Reads the cells and the state of a screen.
ghost use Rattle.std.specs.Prelude.{◌≡◌, ◌<◌, ◌≤◌, ◌⊎◌, map, IfNone, IfSome, None, Some};
ghost use Rattle.std.specs.List.{flat_map};
ghost use Rattle.c_calls.specs.Codes.{NOTHING, OK, RANGE};
ghost use Rattle.c_calls.specs.Places.{with_items};
ghost use Rattle.c_calls.specs.Text.{HandsOverFreely};
ghost use Rattle.c_cells.specs.Cells.{c_cell};
ghost use Rattle.screen_c.specs.Loans.{IsSameLoan};
ghost use Rattle.screen_c.specs.Shown.{c_state};
ghost use Rattle.vt_cells.specs.declared.cell.Cell.{Cell};
ghost use Rattle.vt_dump.specs.Rows.{cell_text};
ghost use Rattle.vt_grid.specs.Grid.{HasCellAt, row_at};

use crate::{OwnedScreen, ScreenLoan, VtState};
use c_calls::{code, hand_over, read};
use c_cells::{VtCell, put_all, put_row};
use vt_dump::row_characters;

/// The size, the cursor and the modes.
#[unsafe(no_mangle)]
pub extern "C" fn vt_lent_screen_state(loan: &mut ScreenLoan, state: &mut VtState) -> u8
    ensures same { IsSameLoan loan.old loan.new }
    ensures nothing { IfNone loan.old.value ((result ≡ NOTHING) × (state.new ≡ state.old)) }
    ensures state { IfSome loan.old.value (λ o. (result ≡ OK) × (state.new ≡ c_state o.emu.state)) }
{
    read!(loan, screen => {
        *state = VtState::of(&screen.emu);
        code::OK
    })
}

/// The cell in this row and column.
#[unsafe(no_mangle)]
pub extern "C" fn vt_lent_screen_cell(
    loan: &mut ScreenLoan,
    row: u32,
    col: u32,
    cell: &mut VtCell,
) -> u8
    ensures same { IsSameLoan loan.old loan.new }
    ensures nothing { IfNone loan.old.value ((result ≡ NOTHING) × (cell.new ≡ cell.old)) }
    ensures cell { IfSome loan.old.value (λ o. let grid = o.emu.state.grid in
        ((result ≡ OK) × (row < grid.rows) × (col < grid.cols)
        × ((c : Cell) × HasCellAt grid row col c × (cell.new ≡ c_cell c)))
        ⊎ ((result ≡ RANGE) × ((grid.rows ≤ row) ⊎ (grid.cols ≤ col)) × (cell.new ≡ cell.old))) }
{
    read!(loan, screen => screen.cell(row, col, cell))
}

/// The cells of a row from its left.
#[unsafe(no_mangle)]
pub extern "C" fn vt_lent_screen_row(loan: &mut ScreenLoan, row: u32, cells: &mut [VtCell]) -> u8
    ensures same { IsSameLoan loan.old loan.new }
    ensures nothing { IfNone loan.old.value ((result ≡ NOTHING) × (cells.new ≡ cells.old)) }
    ensures cells { IfSome loan.old.value (λ o. let grid = o.emu.state.grid in
        ((result ≡ OK) × (row < grid.rows)
        × (cells.new ≡ with_items (map c_cell (row_at grid row)) cells.old))
        ⊎ ((result ≡ RANGE) × (grid.rows ≤ row) × (cells.new ≡ cells.old))) }
{
    read!(loan, screen => put_row(screen.emu.grid(), row, cells))
}

/// All cells, row by row from the top left.
#[unsafe(no_mangle)]
pub extern "C" fn vt_lent_screen_cells(loan: &mut ScreenLoan, cells: &mut [VtCell]) -> u8
    ensures same { IsSameLoan loan.old loan.new }
    ensures nothing { IfNone loan.old.value ((result ≡ NOTHING) × (cells.new ≡ cells.old)) }
    ensures cells { IfSome loan.old.value (λ o. (result ≡ OK)
        × (cells.new ≡ with_items (flat_map (map c_cell) o.emu.state.grid.cells) cells.old)) }
{
    read!(loan, screen => {
        put_all(screen.emu.grid(), cells);
        code::OK
    })
}

/// The characters of a row in UTF-8.
#[unsafe(no_mangle)]
pub extern "C" fn vt_lent_screen_row_text(
    loan: &mut ScreenLoan,
    row: u32,
    text: &mut [u8],
    count: &mut usize,
) -> u8
    ensures same { IsSameLoan loan.old loan.new }
    ensures nothing { IfNone loan.old.value ((result ≡ NOTHING) × (text.new ≡ text.old) × (count.new ≡ count.old)) }
    ensures range { IfSome loan.old.value (λ o. o.emu.state.grid.rows ≤ row
        → (result ≡ RANGE) × (text.new ≡ text.old) × (count.new ≡ count.old)) }
    ensures text { IfSome loan.old.value (λ o. row < o.emu.state.grid.rows
        → HandsOverFreely (flat_map cell_text (row_at o.emu.state.grid row))
        text.old text.new count.new result) }
{
    read!(loan, screen => screen.row_text(row, text, count))
}

impl OwnedScreen {
    fn cell(&self, row: u32, col: u32, cell: &mut VtCell) -> u8
        ensures { let grid = self.now.emu.state.grid in
            ((result ≡ OK) × (row < grid.rows) × (col < grid.cols)
            × ((c : Cell) × HasCellAt grid row col c × (cell.new ≡ c_cell c)))
            ⊎ ((result ≡ RANGE) × ((grid.rows ≤ row) ⊎ (grid.cols ≤ col)) × (cell.new ≡ cell.old)) }
    {
        let grid = self.emu.grid();
        let size = grid.size();
        if u32::from(size.rows) <= row || u32::from(size.cols) <= col {
            return code::RANGE;
        }
        *cell = VtCell::of(grid.at(row as u8, col as u8));
        code::OK
    }

    fn row_text(&self, row: u32, text: &mut [u8], count: &mut usize) -> u8
        ensures range { self.now.emu.state.grid.rows ≤ row
            → (result ≡ RANGE) × (text.new ≡ text.old) × (count.new ≡ count.old) }
        ensures text { row < self.now.emu.state.grid.rows
            → HandsOverFreely (flat_map cell_text (row_at self.now.emu.state.grid row))
            text.old text.new count.new result }
    {
        let grid = self.emu.grid();
        if u32::from(grid.size().rows) <= row {
            return code::RANGE;
        }
        let characters = row_characters(grid, row as u8);
        hand_over(characters.as_slice(), text, count)
    }
}
