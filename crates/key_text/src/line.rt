use crate::line_kind::LineKind;
use std::marker::Model;

/// A line of a keymap with the place of its first word. A line of an included text has the place of
/// the first word of the outermost include line.
#[derive(Drop)]
pub struct Line {
    pub kind: LineKind,
    pub line: u32,
    pub column: u32,
}

impl Model for Line {
    ghost use Rattle.std.specs.Prelude.{IsTrue};
    ghost use Rattle.key_text.specs.KeymapLine.{KeymapLine, is_fit};
    ghost use Rattle.key_text.specs.View.{meaning_of, keymap_line};

    ghost Value = { KeymapLine };

    ghost view = { λ l. keymap_line (meaning_of l.kind) l.line l.column };

    ghost invariant = { λ l. IsTrue (is_fit (meaning_of l.kind)) };
}
