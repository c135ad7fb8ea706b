//! The whole picture.
ghost use Rattle.std.specs.Prelude.{◌≡◌, IfOk};
ghost use Rattle.vt_picture.specs.Picture.{picture_text};

use crate::cursor::add_cursor;
use crate::head::add_head;
use crate::rows::add_rows;
use std::alloc::Global;
use vt_base::{Bytes, NoMemory};
use vt_screen::Emu;

/// The screen as a picture in SVG 1.1, a text in UTF-8. A cell is 8 units wide and 15 units high. Each run of
/// cells is a rectangle and a text in the colours of the screen's palette, in which each word has the left edges
/// of its cells, and the cursor is a line at the bottom of its cell. This project's own.
pub fn picture(alloc: Global, emu: &Emu) -> Result<Bytes, NoMemory>
    ensures { IfOk result (λ text. text.bytes ≡ picture_text emu.now.state) }
{
    let mut text = Bytes::new(alloc);
    add_head(alloc, &mut text, emu)?;
    add_rows(alloc, &mut text, emu.state(), emu.grid())?;
    add_cursor(alloc, &mut text, emu)?;
    text.add(alloc, b"</svg>\n")?;
    Ok(text)
}
