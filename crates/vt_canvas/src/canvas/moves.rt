//! The moves of the cursor.
ghost use Rattle.std.specs.Prelude.{◌≡◌, ◌==◌, ◌-◌, ◌+◌, ◌<◌, ◌≤◌, max, min, not, drop, if◌then◌else◌};
ghost use Rattle.std.specs.List.{prefix_len};
ghost use Rattle.vt_canvas.specs.Cursor.{at_column, first_row, cursor_home, last_row, linefeed, cursor_to, newline, newlines, cursor_to_in_region, region_down, region_up, reverse_linefeed, tab};

use super::Canvas;
use crate::Stops;

impl Canvas {
    pub(super) fn backspace(&mut self)
        ensures { self.new ≡ at_column (self.old.state.x - 1) self.old }
    {
        self.state.x = self.state.x.saturating_sub(1);
        self.state.wrap = false;
    }

    #[tactic(auto, unfolding(crate::specs::Cursor::tab))]
    pub(super) fn tab(&mut self)
        ensures { self.new ≡ tab self.old }
    {
        let last = self.grid.size().cols - 1;
        self.state.x = next_stop(&self.state.stops, self.state.x, last);
    }

    pub(super) fn carriage_return(&mut self)
        ensures { self.new ≡ at_column 0 self.old }
    {
        self.state.x = 0;
        self.state.wrap = false;
    }

    /// LF: a line feed; in newline mode the cursor also goes to the first column.
    pub(super) fn newline(&mut self)
        ensures { self.new ≡ newline self.old }
    {
        if self.state.newline {
            self.carriage_return();
        }
        self.linefeed();
    }

    /// Whether a line feed scrolls: the cursor is in the region's last row.
    pub fn scrolls(&self) -> bool
        ensures { result ≡ (self.now.state.y == self.now.state.bottom) }
    {
        self.state.y == self.state.bottom
    }

    /// Applies line feeds at once, each of which scrolls.
    pub fn scroll(&mut self, count: u16)
        requires some { 0 < count }
        requires scrolls { self.old.state.y ≡ self.old.state.bottom }
        ensures { self.new ≡ newlines count self.old }
    {
        let blank = self.blank();
        self.state.x = self.line_start();
        self.state.wrap = false;
        self.grid
            .scroll_up(self.state.top, self.state.bottom, count, blank);
    }

    // The cursor's column after a line feed.
    fn line_start(&self) -> u8
        ensures column { result ≡ (if self.now.state.newline then 0 else self.now.state.x) }
        ensures within { result < self.now.grid.cols }
    {
        self.grid.stays_full();
        if self.state.newline { 0 } else { self.state.x }
    }

    /// NEL: to the first column of the next row.
    pub(super) fn next_line(&mut self)
        ensures { self.new ≡ linefeed (at_column 0 self.old) }
    {
        self.carriage_return();
        self.linefeed();
    }

    pub(super) fn linefeed(&mut self)
        ensures { self.new ≡ linefeed self.old }
    {
        let last = self.grid.size().rows - 1;
        if self.state.y == self.state.bottom {
            self.scroll_region_up();
        } else {
            self.state.y = last.min(self.state.y + 1);
            self.state.wrap = false;
        }
    }

    pub(super) fn reverse_linefeed(&mut self)
        ensures { self.new ≡ reverse_linefeed self.old }
    {
        if self.state.y == self.state.top {
            self.scroll_region_down();
        } else {
            self.state.y = self.state.y.saturating_sub(1);
            self.state.wrap = false;
        }
    }

    /// Goes to a row and a column, as far as the screen goes, or the region in origin mode.
    #[tactic(auto, unfolding(crate::specs::Cursor::cursor_to))]
    pub(super) fn move_to(&mut self, row: u32, column: u32)
        ensures { self.new ≡ cursor_to row column self.old }
    {
        let right = u32::from(self.grid.size().cols) - 1;
        self.state.y = self.reached_row(row);
        self.state.x = column.min(right) as u8;
        self.state.wrap = false;
    }

    /// Goes to a row and a column; in origin mode the row is counted from the region's first one.
    #[tactic(auto, unfolding(crate::specs::Cursor::cursor_to_in_region))]
    pub(super) fn move_to_in_region(&mut self, row: u16, column: u32)
        ensures { self.new ≡ cursor_to_in_region row column self.old }
    {
        let first = self.first_row();
        self.move_to(u32::from(first) + u32::from(row), column);
    }

    /// The cursor's row.
    #[inline(always)]
    pub(super) fn row(&self) -> u32
        ensures row { result ≡ self.now.state.y }
        ensures byte { result < 256 }
    {
        u32::from(self.state.y)
    }

    /// The cursor's column.
    #[inline(always)]
    pub(super) fn column(&self) -> u32
        ensures column { result ≡ self.now.state.x }
        ensures byte { result < 256 }
    {
        u32::from(self.state.x)
    }

    pub(super) fn home(&mut self)
        ensures { self.new ≡ cursor_home self.old }
    {
        self.move_to_in_region(0, 0);
    }

    // The first row that a move reaches.
    fn first_row(&self) -> u8
        ensures row { result ≡ first_row self.now }
        ensures within { result < self.now.grid.rows }
    {
        self.grid.stays_full();
        if self.state.origin { self.state.top } else { 0 }
    }

    // The row that a move to this one reaches.
    #[inline(always)]
    fn reached_row(&self, row: u32) -> u8
        ensures row { result ≡ max (first_row self.now) (min row (last_row self.now)) }
        ensures within { result < self.now.grid.rows }
    {
        let last = u32::from(self.grid.size().rows) - 1;
        if self.state.origin {
            return self
                .state
                .top
                .max(row.min(u32::from(self.state.bottom)) as u8);
        }
        row.min(last) as u8
    }

    fn scroll_region_up(&mut self)
        ensures { self.new ≡ region_up self.old }
    {
        let blank = self.blank();
        self.state.wrap = false;
        self.grid
            .scroll_up(self.state.top, self.state.bottom, 1, blank);
        self.grid.stays_full();
    }

    fn scroll_region_down(&mut self)
        ensures { self.new ≡ region_down self.old }
    {
        let blank = self.blank();
        self.state.wrap = false;
        self.grid
            .scroll_down(self.state.top, self.state.bottom, 1, blank);
        self.grid.stays_full();
    }
}

// The next stop after column `x`, or the last column if that comes first.
fn next_stop(stops: &Stops, x: u8, last: u8) -> u8
    requires within { x ≤ last }
    requires columns { last < 255 }
    ensures { result ≡ min (x + 1 + prefix_len not (drop (x + 1) stops.now)) last }
{
    let mut x = x;
    while x < last {
        x += 1;
        if stops.has(x) {
            return x;
        }
    }
    last
}
