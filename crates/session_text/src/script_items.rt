//! The items of a process's script, each from its text.
ghost use Rattle.std.specs.Prelude.{◌≡◌, ◌≤◌, true, length, map, IfOk};
ghost use Rattle.std.specs.List.{All};
ghost use Rattle.session_text.specs.ItemTexts.{is_item, item_says};
ghost use Rattle.session_text.specs.Processes.{most_items};
ghost use Rattle.session_text.specs.Says.{Reads, each_says};

use crate::Items;
use crate::item_texts::item;
use std::alloc::Global;
use table_fields::{TableError, refused};
use vt_events::Event;

/// The fault of a text that is no script item.
const ITEM: u16 = 25;

/// The items of process `part`: fault 25 at the first text that is no item.
pub(crate) fn items(alloc: Global, part: u32, texts: &[&str]) -> Result<Items, TableError>
    requires { length texts.now ≤ most_items }
    ensures says { Reads (λ items. items.events) result
        (each_says (item_says part) 1 (map (λ text. text.now) texts.now)) }
    ensures room { IfOk result (λ items. items.room ≡ 0) }
    ensures many { IfOk result (λ items. length items.events ≡ length texts.now) }
    ensures all { IfOk result (λ items. All (λ e. is_item e ≡ true) items.events) }
{
    let mut items = Items::with_room(alloc, texts.len())?;
    for (i, text) in texts.iter().enumerate() {
        match read_item(alloc, part, i as u32 + 1, text) {
            Ok(e) => items.push(e),
            Err(e) => return Err(e),
        }
    }
    Ok(items)
}

fn read_item(alloc: Global, part: u32, place: u32, text: &str) -> Result<Event, TableError>
    ensures says { Reads (λ e. e) result (item_says part place text.now) }
    ensures item { IfOk result (λ e. is_item e ≡ true) }
{
    match item(alloc, text)? {
        Some(e) => Ok(e),
        None => Err(refused(ITEM, part, place)),
    }
}
