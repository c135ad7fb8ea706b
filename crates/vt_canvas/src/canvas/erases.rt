//! Erasing, inserting and deleting.
ghost use Rattle.std.specs.Prelude.{◌≡◌, ◌<◌, ◌≤◌, ◌+◌, ◌-◌};
ghost use Rattle.vt_canvas.specs.Erasing.{above_erased, all_erased, below_erased, cells_deleted, cells_inserted, delete_characters, delete_lines, erase_characters, erase_display, erase_line, in_region, insert_characters, insert_lines, line_end_erased, line_erased, line_start_erased, rows_erased, without_pending_wrap, with_grid};
ghost use Rattle.vt_grid.specs.Halves.{split_wide_between};

use super::Canvas;

impl Canvas {
    /// ED: erases in the display.
    #[tactic(auto, unfolding(crate::specs::Erasing::erase_display))]
    pub(super) fn erase_display(&mut self, which: u16)
        ensures { self.new ≡ erase_display which self.old }
    {
        match which {
            0 => {
                self.erase_line_end();
                self.erase_below();
                self.unwrap();
            }
            1 => {
                self.erase_line_start();
                self.erase_above();
                self.unwrap();
            }
            2 | 3 => {
                self.erase_all();
                self.unwrap();
            }
            _ => {}
        }
    }

    /// EL: erases in the cursor's row.
    #[tactic(auto, unfolding(crate::specs::Erasing::erase_line))]
    pub(super) fn erase_line(&mut self, which: u16)
        ensures { self.new ≡ erase_line which self.old }
    {
        match which {
            0 => {
                self.erase_line_end();
                self.unwrap();
            }
            1 => {
                self.erase_line_start();
                self.unwrap();
            }
            2 => {
                self.erase_whole_line();
                self.unwrap();
            }
            _ => {}
        }
    }

    /// ECH: erases `n` cells from the cursor on.
    #[tactic(auto, unfolding(crate::specs::Erasing::erase_characters))]
    pub(super) fn erase_characters(&mut self, n: u16)
        requires { 0 < n }
        ensures { self.new ≡ erase_characters n self.old }
    {
        let last = self.grid.size().cols - 1;
        let end = u32::from(self.state.x) + u32::from(n) - 1;
        self.erase_cells(self.state.x, end.min(u32::from(last)) as u8);
        self.unwrap();
    }

    /// ICH: inserts `n` blanks at the cursor.
    #[tactic(auto, unfolding(crate::specs::Erasing::insert_characters))]
    pub(super) fn insert_characters(&mut self, n: u16)
        ensures { self.new ≡ insert_characters n self.old }
    {
        self.insert_cells(n);
        self.unwrap();
    }

    /// DCH: deletes `n` cells at the cursor.
    #[tactic(auto, unfolding(crate::specs::Erasing::delete_characters))]
    pub(super) fn delete_characters(&mut self, n: u16)
        ensures { self.new ≡ delete_characters n self.old }
    {
        self.delete_cells(n);
        self.unwrap();
    }

    /// IL: inserts `n` blank rows at the cursor's row.
    #[tactic(auto, unfolding(crate::specs::Erasing::insert_lines))]
    pub(super) fn insert_lines(&mut self, n: u16)
        ensures { self.new ≡ insert_lines n self.old }
    {
        let blank = self.blank();
        if self.is_in_region() {
            self.grid
                .scroll_down(self.state.y, self.state.bottom, n, blank);
            self.grid.stays_full();
        }
        self.unwrap();
    }

    /// DL: deletes `n` rows at the cursor's row.
    #[tactic(auto, unfolding(crate::specs::Erasing::delete_lines))]
    pub(super) fn delete_lines(&mut self, n: u16)
        ensures { self.new ≡ delete_lines n self.old }
    {
        let blank = self.blank();
        if self.is_in_region() {
            self.grid
                .scroll_up(self.state.y, self.state.bottom, n, blank);
            self.grid.stays_full();
        }
        self.unwrap();
    }

    fn is_in_region(&self) -> bool
        ensures { result ≡ in_region self.now }
    {
        self.state.top <= self.state.y && self.state.y <= self.state.bottom
    }

    // Ends a pending wrap.
    fn unwrap(&mut self)
        ensures { self.new ≡ without_pending_wrap self.old }
    {
        self.state.wrap = false;
    }

    fn erase_line_end(&mut self)
        ensures { self.new ≡ line_end_erased self.old }
    {
        let last = self.grid.size().cols - 1;
        self.erase_cells(self.state.x, last);
    }

    fn erase_line_start(&mut self)
        ensures { self.new ≡ line_start_erased self.old }
    {
        self.grid.stays_full();
        self.erase_cells(0, self.state.x);
    }

    fn erase_whole_line(&mut self)
        ensures { self.new ≡ line_erased 0 (self.old.grid.cols - 1) self.old }
    {
        let last = self.grid.size().cols - 1;
        self.erase_cells(0, last);
    }

    fn erase_below(&mut self)
        ensures { self.new ≡ below_erased self.old }
    {
        let rows = self.grid.size().rows;
        let next = self.state.y + 1;
        self.erase_rows(next, rows - next);
    }

    fn erase_above(&mut self)
        ensures { self.new ≡ above_erased self.old }
    {
        self.grid.stays_full();
        self.erase_rows(0, self.state.y);
    }

    fn erase_all(&mut self)
        ensures { self.new ≡ all_erased self.old }
    {
        let rows = self.grid.size().rows;
        self.erase_rows(0, rows);
    }

    // Erases the cells from column `from` to `to` of the cursor's row, both included.
    fn erase_cells(&mut self, from: u8, to: u8)
        requires order { from ≤ to }
        requires column { to < self.old.grid.cols }
        ensures { self.new ≡ line_erased from to self.old }
    {
        self.grid.stays_full();
        let blank = self.blank();
        self.part(from, to + 1);
        self.grid.erase(self.state.y, from, to, blank);
        self.grid.stays_full();
    }

    /// Inserts `n` blanks at the cursor.
    pub(super) fn insert_cells(&mut self, n: u16)
        ensures { self.new ≡ cells_inserted n self.old }
    {
        let blank = self.blank();
        let cols = self.grid.size().cols;
        let count = n.min(u16::from(cols - self.state.x)) as u8;
        self.part(self.state.x, cols - count);
        self.grid.insert(self.state.y, self.state.x, n, blank);
        self.grid.stays_full();
    }

    // Deletes `n` cells at the cursor.
    fn delete_cells(&mut self, n: u16)
        ensures { self.new ≡ cells_deleted n self.old }
    {
        let blank = self.blank();
        self.part_ends(n);
        self.grid.delete(self.state.y, self.state.x, n, blank);
        self.grid.stays_full();
    }

    // Splits the cursor's row before the cursor, and then `n` columns after it, if the row is so long.
    fn part_ends(&mut self, n: u16)
        ensures { self.new
            ≡ with_grid self.old
            (split_wide_between self.old.grid self.old.state.y self.old.state.x (self.old.state.x + n)) }
    {
        self.grid.part(self.state.y, self.state.x);
        let end = u32::from(self.state.x) + u32::from(n);
        if end < u32::from(self.grid.size().cols) {
            self.grid.part(self.state.y, end as u8);
            self.grid.stays_full();
        }
    }

    // Splits the cursor's row before column `x`, and then before column `end`.
    fn part(&mut self, x: u8, end: u8)
        requires column { x ≤ self.old.grid.cols }
        requires end { end ≤ self.old.grid.cols }
        ensures { self.new
            ≡ with_grid self.old (split_wide_between self.old.grid self.old.state.y x end) }
    {
        self.grid.part(self.state.y, x);
        self.grid.part(self.state.y, end);
        self.grid.stays_full();
    }

    // Erases `count` rows from `from` on.
    #[tactic(auto, unfolding(crate::specs::Erasing::rows_erased))]
    fn erase_rows(&mut self, from: u8, count: u8)
        requires { from + count ≤ self.old.grid.rows }
        ensures { self.new ≡ rows_erased from count self.old }
    {
        self.grid.stays_full();
        if count > 0 {
            let blank = self.blank();
            let last = from + (count - 1);
            self.grid.scroll_up(from, last, u16::from(count), blank);
            self.grid.stays_full();
        }
    }
}
