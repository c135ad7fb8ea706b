//! The text before the runs.
ghost use Rattle.std.specs.Prelude.{◌≡◌, ◌++◌, OnOk};
ghost use Rattle.vt_picture.specs.Picture.{cursor_words, description_text, head_text, opening_tag, place_words, size_words, style, title_text};

use crate::adding::add_numbered;
use crate::rows::{CELL_HEIGHT, CELL_WIDTH};
use std::alloc::Global;
use vt_base::{Bytes, NoMemory};
use vt_grid::Grid;
use vt_screen::{Emu, ScreenState};

/// Adds the tag of the picture, the title, the description and the style.
#[tactic(auto, unfolding(crate::specs::Picture::head_text))]
pub(crate) fn add_head(alloc: Global, text: &mut Bytes, emu: &Emu) -> Result<(), NoMemory>
    ensures { OnOk result (text.new.bytes ≡ text.old.bytes ++ head_text emu.now.state) }
{
    add_opening_tag(alloc, text, emu.grid())?;
    add_title(alloc, text, emu.grid())?;
    add_description(alloc, text, emu)?;
    add_style(alloc, text)
}

fn add_opening_tag(alloc: Global, text: &mut Bytes, g: &Grid) -> Result<(), NoMemory>
    ensures { OnOk result (text.new.bytes ≡ text.old.bytes ++ opening_tag g.now) }
{
    let size = g.size();
    text.add(
        alloc,
        b"<svg xmlns='http://www.w3.org/2000/svg' xml:space='preserve'",
    )?;
    text.add(
        alloc,
        b" font-family='monospace' font-size='13.3' shape-rendering='crispEdges'",
    )?;
    add_numbered(alloc, text, b"width", CELL_WIDTH * u16::from(size.cols))?;
    add_numbered(alloc, text, b"height", CELL_HEIGHT * u16::from(size.rows))?;
    text.add(alloc, b">\n")?;
    Ok(())
}

fn add_title(alloc: Global, text: &mut Bytes, g: &Grid) -> Result<(), NoMemory>
    ensures { OnOk result (text.new.bytes ≡ text.old.bytes ++ title_text g.now) }
{
    text.add(alloc, b"<title>A screen of ")?;
    add_size_words(alloc, text, g)?;
    text.add(alloc, b"</title>\n")?;
    Ok(())
}

fn add_description(alloc: Global, text: &mut Bytes, emu: &Emu) -> Result<(), NoMemory>
    ensures { OnOk result (text.new.bytes ≡ text.old.bytes ++ description_text emu.now.state) }
{
    text.add(alloc, b"<desc>A text console of ")?;
    add_size_words(alloc, text, emu.grid())?;
    text.add(alloc, b". ")?;
    add_cursor_words(alloc, text, emu.state())?;
    text.add(alloc, b"</desc>\n")?;
    Ok(())
}

#[tactic(auto, unfolding(crate::specs::Picture::size_words))]
fn add_size_words(alloc: Global, text: &mut Bytes, g: &Grid) -> Result<(), NoMemory>
    ensures { OnOk result (text.new.bytes ≡ text.old.bytes ++ size_words g.now) }
{
    let size = g.size();
    text.add_decimal(alloc, u64::from(size.rows))?;
    text.add(alloc, b" rows and ")?;
    text.add_decimal(alloc, u64::from(size.cols))?;
    text.add(alloc, b" columns")
}

fn add_cursor_words(alloc: Global, text: &mut Bytes, state: &ScreenState) -> Result<(), NoMemory>
    ensures { OnOk result (text.new.bytes ≡ text.old.bytes ++ cursor_words state.now) }
{
    if state.visible {
        add_place_words(alloc, text, state)
    } else {
        text.add(alloc, b"The cursor is hidden.")
    }
}

fn add_place_words(alloc: Global, text: &mut Bytes, state: &ScreenState) -> Result<(), NoMemory>
    ensures { OnOk result (text.new.bytes ≡ text.old.bytes ++ place_words state.now) }
{
    text.add(alloc, b"The cursor is in row ")?;
    text.add_decimal(alloc, u64::from(state.y) + 1)?;
    text.add(alloc, b" and column ")?;
    text.add_decimal(alloc, u64::from(state.x) + 1)?;
    text.add(alloc, b".")?;
    Ok(())
}

#[tactic(auto, unfolding(crate::specs::Picture::style))]
fn add_style(alloc: Global, text: &mut Bytes) -> Result<(), NoMemory>
    ensures { OnOk result (text.new.bytes ≡ text.old.bytes ++ style) }
{
    text.add(
        alloc,
        b"<style>text{white-space:pre}.bold{font-weight:bold}",
    )?;
    text.add(
        alloc,
        b".blink{animation:blink 1s steps(2,start) infinite}@keyframes blink{to{visibility:hidden}}",
    )?;
    text.add(
        alloc,
        b"@media(prefers-reduced-motion:reduce){.blink{animation:none}}</style>\n",
    )
}
