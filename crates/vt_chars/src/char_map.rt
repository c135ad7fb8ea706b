ghost use Rattle.std.specs.Prelude.{◌≡◌, ◌<◌, EachIndex, length, slice_index};
ghost use Rattle.vt_chars.specs.CharMap.{char_of, font_place};

mod same;

use crate::graphics::graphic;
use std::marker::Model;

/// The four tables that map a byte to a character (console_codes(4), "Character sets"): 0 is
/// Latin-1, 1 the VT100 graphics, 2 the null mapping to the font, and 3 the user's own.
#[derive(Debug, Drop)]
pub struct CharMap {
    user: [u16; 256],
}

impl Model for CharMap {
    ghost use Rattle.std.specs.Prelude.{◌≡◌, ℕ, List, length};

    // The user's table, byte by byte.
    ghost Value = { List ℕ };

    ghost view = { λ m. m.user };

    ghost invariant = { λ m. length m.user ≡ 256 };
}

impl CharMap {
    /// The tables of a start: the user's table is the null mapping.
    pub fn start() -> CharMap
        ensures bytes { length result ≡ 256 }
        ensures null { EachIndex result (λ b. slice_index result b ≡ font_place b) }
    {
        let mut user = [0; 256];
        for b in 0..256 {
            user[b] = font_place(b as u16);
        }
        CharMap { user }
    }

    /// The code point of a byte in a table.
    pub fn map(&self, table: u8, b: u8) -> u32
        requires { table < 4 }
        ensures { result ≡ char_of self.now table b }
    {
        match table {
            0 => u32::from(b),
            1 => graphic(b),
            2 => u32::from(font_place(u16::from(b))),
            _ => u32::from(self.user[usize::from(b)]),
        }
    }

    /// The user's table: a code point for each byte.
    pub fn user(&self) -> &[u16; 256]
        ensures { result.now ≡ self.now }
    {
        &self.user
    }

    /// Replaces the user's table: a code point for each byte.
    pub fn set_user(&mut self, words: &[u16; 256])
        ensures { self.new ≡ words.now }
    {
        self.user = *words;
    }
}

fn font_place(b: u16) -> u16
    requires { b < 256 }
    ensures { result ≡ font_place b }
{
    0xF000 + b
}
