//! Whether a unit moves the first row out at the top of the screen.
ghost use Rattle.std.specs.Prelude.{◌≡◌, ◌≤◌, min};
ghost use Rattle.vt_canvas.specs.Falling.{feeds_line, goes_to_next_row, is_at_end, loses_row};
ghost use Rattle.vt_canvas.specs.Printing.{lacks_room};

use super::Canvas;
use vt_cells::columns;
use vt_units::Unit;

impl Canvas {
    /// Whether the screen's first row falls out by this unit: a line feed, or a character that goes to the next
    /// row, in the last row of a region that begins with the first row.
    pub fn loses_row(&self, unit: &Unit) -> bool
        ensures { result ≡ loses_row unit.now self.now }
    {
        self.is_at_end() && self.feeds_line(unit)
    }

    /// Whether a line feed moves the first row out.
    #[inline(always)]
    pub fn is_at_end(&self) -> bool
        ensures { result ≡ is_at_end self.now }
    {
        self.state.top == 0 && self.state.y == self.state.bottom
    }

    // Whether the unit begins with a line feed.
    fn feeds_line(&self, unit: &Unit) -> bool
        ensures { result ≡ feeds_line unit.now self.now }
    {
        match unit {
            Unit::Char(code) => self.goes_to_next_row(columns(*code)),
            Unit::Byte(_) => self.goes_to_next_row(1),
            Unit::Control(code) => *code == 0x0A || *code == 0x0B || *code == 0x0C,
            Unit::Esc { mid, last } => *mid == 0 && (*last == b'D' || *last == b'E'),
            _ => false,
        }
    }

    // Whether a character of so many columns goes to the next row.
    fn goes_to_next_row(&self, width: u8) -> bool
        requires { width ≤ 2 }
        ensures { result ≡ goes_to_next_row width self.now }
    {
        if width == 0 || !self.state.autowrap {
            return false;
        }
        self.state.wrap || self.lacks_room(width)
    }

    // Whether a character of so many columns doesn't end in the cursor's row.
    fn lacks_room(&self, width: u8) -> bool
        ensures { result ≡ lacks_room (min width self.now.grid.cols) self.now }
    {
        let cols = self.grid.size().cols;
        cols - width.min(cols) < self.state.x
    }
}
