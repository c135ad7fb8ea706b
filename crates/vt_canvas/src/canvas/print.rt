//! The characters that are printed at the cursor.
ghost use Rattle.std.specs.List.{list_all};
ghost use Rattle.std.specs.Prelude.{◌≡◌, ◌<◌, ◌≤◌, ◌+◌, ◌-◌, false, true, length, nat_lt, take, if◌then◌else◌};
ghost use Rattle.vt_cells.specs.Width.{is_plain};
ghost use Rattle.vt_canvas.specs.Printing.{codes_drawn, with_gap, print, print_character, print_characters, with_cells_at_cursor, room, with_character, character_of_byte, cells_of_characters, table_of, toggle_high_bit, after_wrap};
ghost use Rattle.vt_canvas.specs.Screen.{IsWhole};

use super::Canvas;
use super::prefixes::{fitting_prefix, plain_prefix};
use crate::ScreenState;
use vt_cells::{HALF, columns};
use vt_units::{Codes, MOST_CODES};

/// The character that replaces one for which a row has no columns (Unicode, "REPLACEMENT CHARACTER").
const REPLACEMENT: u32 = 0xFFFD;

impl Canvas {
    /// Prints a character in the columns that it takes.
    pub fn print(&mut self, code: u32)
        ensures { self.new ≡ print_character code self.old }
    {
        self.print_cells(columns(code), code);
    }

    /// Prints a character in so many columns.
    #[tactic(auto, unfolding(crate::specs::Printing::print))]
    pub(crate) fn print_cells(&mut self, width: u8, code: u32)
        requires { width ≤ 2 }
        ensures { self.new ≡ print width code self.old }
    {
        let cols = self.grid.size().cols;
        if width == 0 {
            return;
        }
        if width == 2 && cols == 1 {
            self.set_down(1, REPLACEMENT);
        } else {
            self.set_down(width, code);
        }
    }

    /// The number of cells from the cursor to the end of its row, if no wrap is pending and insert mode is
    /// off.
    pub fn room(&self) -> usize
        ensures room { result ≡ room self.now }
        ensures whole { IsWhole self.now }
        ensures unwrapped { 0 < result → self.now.state.wrap ≡ false }
        ensures closed { 0 < result → self.now.state.insert ≡ false }
        ensures fits { self.now.state.x + result ≤ self.now.grid.cols }
        ensures small { result < 256 }
    {
        let cols = self.grid.size().cols;
        if self.state.wrap || self.state.insert {
            0
        } else {
            usize::from(cols - self.state.x)
        }
    }

    /// Prints the character of the first byte, if there is one.
    pub fn print_first(&mut self, bytes: &[u8])
        requires { length bytes.now ≤ 1 }
        ensures { self.new ≡ print_characters bytes.now self.old }
    {
        if bytes.is_empty() {
            return;
        }
        self.print(u32::from(bytes[0]));
    }

    /// Prints characters of one column, one for each byte, that end in the cursor's row.
    #[inline(always)]
    pub fn print_bytes(&mut self, bytes: &[u8])
        requires narrow { cells_of_characters bytes.now ≡ bytes.now }
        requires some { 0 < room self.old }
        requires room { length bytes.now ≤ room self.old }
        ensures { self.new ≡ print_characters bytes.now self.old }
    {
        let _ = self.room();
        if bytes.is_empty() {
            return;
        }
        self.put_bytes(bytes);
    }

    /// Prints characters, one after another.
    pub fn print_codes(&mut self, codes: &[u32])
        ensures { self.new ≡ print_characters codes.now self.old }
    {
        let mut at = 0;
        while at < codes.len() {
            at += self.print_some(&codes[at..]);
        }
    }

    // Prints characters at the start, as many at once as end in the cursor's row, and returns their number.
    fn print_some(&mut self, codes: &[u32]) -> usize
        requires { 0 < length codes.now }
        ensures some { 0 < result }
        ensures within { result ≤ length codes.now }
        ensures printed { self.new ≡ print_characters (take result codes.now) self.old }
    {
        let plain = self.print_plain(codes);
        if plain > 0 {
            return plain;
        }
        let some = self.print_spread(codes);
        if some > 0 {
            return some;
        }
        self.print(codes[0]);
        1
    }

    // Prints the plain characters at the start that end in the cursor's row, and returns their number.
    #[tactic(auto, using(crate::proofs::Prefixes::plain_within))]
    fn print_plain(&mut self, codes: &[u32]) -> usize
        ensures within { result ≤ length codes.now }
        ensures printed { self.new ≡ print_characters (take result codes.now) self.old }
    {
        let front = &codes[..codes.len().min(self.room())];
        let count = plain_prefix(front);
        if count > 0 {
            self.put_plain(&front[..count]);
        }
        count
    }

    // Prints the characters at the start that end in the cursor's row, and returns their number: 0 if they
    // have no cell.
    fn print_spread(&mut self, codes: &[u32]) -> usize
        ensures within { result ≤ length codes.now }
        ensures printed { self.new ≡ print_characters (take result codes.now) self.old }
    {
        let mut cells = Codes::new();
        let count = fitting_prefix(codes, self.room().min(MOST_CODES), &mut cells);
        if cells.len() == 0 {
            return 0;
        }
        self.put_codes(cells.as_slice());
        count
    }

    // Prints a character in so many columns; a row has at least as many.
    fn set_down(&mut self, width: u8, code: u32)
        requires some { 0 < width }
        requires few { width ≤ 2 }
        requires fits { width ≤ self.old.grid.cols }
        ensures { self.new ≡ with_character width code self.old }
    {
        self.wrap(width);
        self.open(width);
        self.put(width, code);
    }

    // Moves the cursor to a place at which a character of so many columns ends in the row, and does the
    // pending wrap.
    fn wrap(&mut self, width: u8)
        requires { width ≤ self.old.grid.cols }
        ensures wrapped { self.new ≡ after_wrap width self.old }
        ensures fits { self.new.state.x + width ≤ self.new.grid.cols }
    {
        let cols = self.grid.size().cols;
        let lacks = cols - width < self.state.x;
        if self.state.autowrap && (self.state.wrap || lacks) {
            self.carriage_return();
            self.linefeed();
        } else if lacks {
            self.state.x = cols - width;
            self.state.wrap = false;
        }
    }

    // In insert mode, makes room at the cursor.
    fn open(&mut self, width: u8)
        ensures { self.new ≡ with_gap width self.old }
    {
        if self.state.insert {
            self.insert_cells(u16::from(width));
        }
    }

    // Puts a character of so many columns at the cursor, and moves the cursor on.
    fn put(&mut self, width: u8, code: u32)
        requires few { width ≤ 2 }
        requires fits { self.old.state.x + length (codes_drawn width code) ≤ self.old.grid.cols }
        ensures { self.new ≡ with_cells_at_cursor (codes_drawn width code) self.old }
    {
        if width == 2 {
            self.put_codes(&[code, HALF]);
        } else {
            self.put_codes(&[code]);
        }
    }

    // Puts the cells of these codes at the cursor, and moves the cursor on.
    #[inline(always)]
    fn put_codes(&mut self, codes: &[u32])
        requires { self.old.state.x + length codes.now ≤ self.old.grid.cols }
        ensures { self.new ≡ with_cells_at_cursor codes.now self.old }
    {
        let cols = self.grid.size().cols;
        self.grid
            .draw_codes(self.state.y, self.state.x, codes, self.attr);
        self.grid.stays_full();
        go_on(&mut self.state, codes.len(), cols);
    }

    // Puts the cells of these plain codes at the cursor, and moves the cursor on.
    #[inline(always)]
    fn put_plain(&mut self, codes: &[u32])
        requires plain { list_all is_plain codes.now ≡ true }
        requires fits { self.old.state.x + length codes.now ≤ self.old.grid.cols }
        ensures { self.new ≡ with_cells_at_cursor codes.now self.old }
    {
        let cols = self.grid.size().cols;
        self.grid
            .draw_plain(self.state.y, self.state.x, codes, self.attr);
        self.grid.stays_full();
        go_on(&mut self.state, codes.len(), cols);
    }

    // Puts the cells of these bytes at the cursor, and moves the cursor on.
    #[inline(always)]
    fn put_bytes(&mut self, bytes: &[u8])
        requires fits { self.old.state.x + length bytes.now ≤ self.old.grid.cols }
        requires unwrapped { self.old.state.wrap ≡ false }
        ensures { self.new ≡ with_cells_at_cursor bytes.now self.old }
    {
        let cols = self.grid.size().cols;
        self.grid
            .draw_bytes(self.state.y, self.state.x, bytes, self.attr);
        self.grid.stays_full();
        go_on_unwrapped(&mut self.state, bytes.len(), cols);
    }

    /// The character that a byte is shown as.
    #[tactic(auto, unfolding(crate::specs::Printing::character_of_byte))]
    pub(super) fn shown(&self, b: u8) -> u32
        ensures { result ≡ character_of_byte b self.now }
    {
        let b = if self.state.pen.toggle {
            toggle_high_bit(b)
        } else {
            b
        };
        self.state.map.map(self.table(), b)
    }

    // The table in use.
    fn table(&self) -> u8
        ensures table { result ≡ table_of self.now }
        ensures known { result < 4 }
    {
        if self.state.pen.alt {
            2
        } else if self.state.shift == 0 {
            self.state.g0
        } else {
            self.state.g1
        }
    }
}

// Moves the cursor on over so many cells: if they end the row, it is in the last column, and with autowrap a
// wrap is pending.
#[inline(always)]
fn go_on(state: &mut ScreenState, count: usize, cols: u8)
    requires some { 0 < cols }
    requires fits { state.old.x + count ≤ cols }
    ensures { state.new
        ≡ record state.old {
          x = if nat_lt (state.old.x + count) cols then state.old.x + count else cols - 1;
          wrap = if nat_lt (state.old.x + count) cols then false else state.old.autowrap;
        } }
{
    let end = usize::from(state.x) + count;
    if end < usize::from(cols) {
        state.x = end as u8;
        state.wrap = false;
    } else {
        state.x = cols - 1;
        state.wrap = state.autowrap;
    }
}

// Moves the cursor on over so many cells, if no wrap is pending.
#[inline(always)]
fn go_on_unwrapped(state: &mut ScreenState, count: usize, cols: u8)
    requires some { 0 < cols }
    requires fits { state.old.x + count ≤ cols }
    requires unwrapped { state.old.wrap ≡ false }
    ensures { state.new
        ≡ record state.old {
          x = if nat_lt (state.old.x + count) cols then state.old.x + count else cols - 1;
          wrap = if nat_lt (state.old.x + count) cols then false else state.old.autowrap;
        } }
{
    let end = usize::from(state.x) + count;
    if end < usize::from(cols) {
        state.x = end as u8;
    } else {
        state.x = cols - 1;
        state.wrap = state.autowrap;
    }
}

fn toggle_high_bit(b: u8) -> u8
    ensures { result ≡ toggle_high_bit b }
{
    if b < 0x80 { b + 0x80 } else { b - 0x80 }
}
