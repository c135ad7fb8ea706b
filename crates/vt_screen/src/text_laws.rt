//! The law that printable text fills the start screen row by row.
ghost use Rattle.vt_screen.specs.TextRows.{TextFillsRows, TextScrolls};

/// On the start screen printable text fills the screen row after row; if it has more characters than the
/// screen has cells, the screen shows its last rows. The cursor is after the text.
pub fn text_fills_rows()
    ensures fits { TextFillsRows }
    ensures scrolls { TextScrolls }
{}
