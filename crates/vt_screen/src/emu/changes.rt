//! The rows that a text may change.
ghost use Rattle.std.specs.Prelude.{◌≡◌, ◌↔◌, [], true, false, IfSome, IsSome};
ghost use Rattle.vt_canvas.specs.Screen.{mode_of};
ghost use Rattle.vt_screen.specs.ChangedRows.{AreCursorRows, ChangesAtMost, ReadsPlainly, StaysAbove};
ghost use Rattle.vt_units.specs.Bytes.{decodes};

use super::Emu;
use crate::cursor_step::{CursorState, next_cursor};

impl Emu {
    /// The first and the last row that these bytes may change, both included: the cursor's row before them and
    /// after them. If it is `None`, they may change every row. Rows are known if the bytes begin between two units,
    /// are printable characters of ASCII, BEL, BS, LF or CR, and go to the next row only above the region's
    /// last one, and the screen has UTF-8, autowrap and no newline mode. This project's own.
    pub fn changed_rows(&self, bytes: &[u8]) -> Option<(u8, u8)>
        ensures rows { IfSome result (λ rows. ChangesAtMost rows.0 rows.1 self.now bytes.now) }
        ensures cursor { IfSome result (λ rows. AreCursorRows rows.0 rows.1 self.now bytes.now) }
        ensures known { IsSome result ↔ StaysAbove self.now bytes.now }
    {
        if !self.reads_plainly() {
            return None;
        }
        let state = self.state();
        let grid = self.grid();
        let size = grid.size();
        let mut at = CursorState {
            x: state.x,
            y: state.y,
            wrap: state.wrap,
        };
        for b in bytes {
            match next_cursor(size.cols, state.bottom, at, *b) {
                Some(next) => at = next,
                None => return None,
            }
        }
        Some((state.y, at.y))
    }

    // No text is pending, text is UTF-8, characters wrap, and a line feed stays in its column.
    #[tactic(auto, using(crate::proofs::Printed::empty_is))]
    fn reads_plainly(&self) -> bool
        ensures text { result ≡ true → self.now.rest.text ≡ [] }
        ensures decoding { result ≡ true → decodes (mode_of self.now.state) ≡ true }
        ensures wraps { result ≡ true → self.now.state.state.autowrap ≡ true }
        ensures straight { result ≡ true → self.now.state.state.newline ≡ false }
        ensures plainly { ReadsPlainly self.now → result ≡ true }
    {
        let mode = self.canvas.mode();
        let state = self.state();
        if !self.pending.is_empty() || !mode.utf8 || mode.display {
            return false;
        }
        state.autowrap && !state.newline
    }
}
