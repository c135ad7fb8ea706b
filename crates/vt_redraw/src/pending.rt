//! The part of a row that is drawn and isn't in the text yet.
ghost use Rattle.std.specs.Prelude.{◌≡◌, ◌<◌, ◌≤◌, ◌+◌, ◌++◌, ◌∷◌, [], Bool, List, length, replicate};
ghost use Rattle.vt_cells.specs.declared.cell.Cell.{Cell};
ghost use Rattle.vt_redraw.specs.Cells.{glyph_text};
ghost use Rattle.vt_redraw.specs.Pending.{pending_text};

use vt_base::ShortList;

/// The most bytes of a row's characters: four for each.
const MOST_ROW_BYTES: usize = 1_020;

/// Characters in UTF-8 and then spaces, all in the byte that the pen has. The spaces are a blank end if no other
/// character follows them.
#[derive(Drop)]
pub(crate) struct Pending {
    pub(crate) front: ShortList<u8, MOST_ROW_BYTES>,
    pub(crate) blanks: u16,
    pub(crate) attr: u16,
}

impl Pending {
    /// No cells, with a pen of this byte.
    pub(crate) fn new(attr: u16) -> Pending
        ensures front { result.front ≡ [] }
        ensures blanks { result.blanks ≡ 0 }
        ensures attr { result.attr ≡ attr }
    {
        Pending {
            front: ShortList::new(),
            blanks: 0,
            attr,
        }
    }

    /// Draws a character of ASCII in the pen's byte.
    #[inline(always)]
    pub(crate) fn push_ascii(&mut self, code: u8)
        requires ascii { code < 128 }
        requires room { length self.old.front + self.old.blanks < 1020 }
        ensures text { (erases : Bool) (more : List Cell) → pending_text erases self.new more
            ≡ pending_text erases self.old (record { code = code; attr = self.old.attr } ∷ more) }
        ensures attr { self.new.attr ≡ self.old.attr }
        ensures few { length self.new.front + self.new.blanks
            ≡ length self.old.front + self.old.blanks + 1 }
    {
        if code == b' ' {
            self.blanks += 1;
            return;
        }
        self.settle();
        self.front.push(code);
    }

    /// Makes the spaces characters like the others.
    #[inline(always)]
    pub(crate) fn settle(&mut self)
        requires { length self.old.front + self.old.blanks ≤ 1020 }
        ensures front { self.new.front ≡ self.old.front ++ replicate self.old.blanks 0x20 }
        ensures blanks { self.new.blanks ≡ 0 }
        ensures attr { self.new.attr ≡ self.old.attr }
    {
        while 0 < self.blanks {
            self.front.push(b' ');
            self.blanks -= 1;
        }
    }

    /// Draws a character in the pen's byte, if no spaces are pending before it.
    pub(crate) fn push(&mut self, code: u32)
        requires room { length self.old.front + 4 ≤ 1020 }
        requires settled { self.old.blanks ≡ 0 }
        ensures text { (erases : Bool) (more : List Cell) → pending_text erases self.new more
            ≡ pending_text erases self.old (record { code = code; attr = self.old.attr } ∷ more) }
        ensures attr { self.new.attr ≡ self.old.attr }
        ensures few { length self.new.front + self.new.blanks ≤ length self.old.front + 4 }
    {
        if code == 0x20 {
            self.blanks = 1;
        } else {
            self.push_glyph(code);
        }
    }

    #[tactic(auto, unfolding(crate::specs::Cells::glyph_text))]
    fn push_glyph(&mut self, code: u32)
        requires { length self.old.front + 4 ≤ 1020 }
        ensures front { self.new.front ≡ self.old.front ++ glyph_text code }
        ensures blanks { self.new.blanks ≡ self.old.blanks }
        ensures attr { self.new.attr ≡ self.old.attr }
        ensures few { length self.new.front ≤ length self.old.front + 4 }
    {
        if let Some(c) = char::from_u32(code) {
            let mut buffer = [0; 4];
            self.front.extend(c.encode_utf8(&mut buffer).as_bytes());
        }
    }
}
