//! The further keyboards of a session, read from its table.
ghost use Rattle.std.specs.Prelude.{◌≡◌, ◌≤◌, length, map, option_map, IfOk};
ghost use Rattle.std.specs.List.{All};
ghost use Rattle.table_fields.specs.Checked.{Gives, GivesBy, collect};
ghost use Rattle.table_fields.specs.Fields.{bytes_of, few_items_of, most_scan_bytes};
ghost use Rattle.toml.specs.View.{view};
ghost use Rattle.vt_events.specs.Kinds.{text};
ghost use Rattle.session_text.specs.Keyboards.{further_of, keyboards_of};
ghost use Rattle.session_text.specs.Parts.{IsFitFurther};

use std::alloc::Global;
use table_fields::fault_code::{FURTHER_SCAN_BYTE, OUT_OF_RANGE};
use table_fields::{TableError, count, item_bytes, refused, scan_items, strings};
use toml::Value;
use vt_base::Bytes;

/// The most keyboards in addition to the first.
const MOST_FURTHER: usize = 3;

/// How many keyboards there are, with the first one.
pub(crate) fn keyboard_count(value: Option<&Value>) -> u8
    ensures { result ≡ keyboards_of (option_map (λ v. view v.now) value.entry) }
{
    count(value).min(MOST_FURTHER) as u8 + 1
}

/// The scan bytes of each further keyboard.
pub(crate) fn further(alloc: Global, value: Option<&Value>) -> Result<Vec<Bytes>, TableError>
    ensures further { GivesBy (λ found texts. found.items ≡ map text texts) result
        (further_of (option_map (λ v. view v.now) value.entry)) }
    ensures fit { IfOk result (λ found. IsFitFurther found.items) }
{
    let texts = strings(alloc, value, 0, 12)?;
    if texts.len() > MOST_FURTHER {
        return Err(refused(OUT_OF_RANGE, 0, 12));
    }
    let items = all_items(alloc, texts.as_slice())?;
    all_bytes(alloc, items.as_slice())
}

// The items of each text.
fn all_items<'a>(alloc: Global, texts: &[&'a str]) -> Result<Vec<Vec<&'a str>>, TableError>
    ensures items { Gives
        (λ found. map (λ items. map (λ item. item.now) items.items) found.items) result
        (collect (λ k text. few_items_of 0 12 text) 1 (map (λ text. text.now) texts.now)) }
    ensures many { IfOk result (λ found. length found.items ≡ length texts.now) }
    ensures few { IfOk result
        (λ found. All (λ items. length items.items ≤ most_scan_bytes) found.items) }
{
    let mut found = Vec::new(alloc);
    for text in texts {
        let items = scan_items(alloc, text, 0, 12)?;
        found.push(items)?;
    }
    Ok(found)
}

// The bytes of each text, of keyboard 1 and the keyboards after it.
fn all_bytes(alloc: Global, texts: &[Vec<&str>]) -> Result<Vec<Bytes>, TableError>
    requires many { length texts.now ≤ 3 }
    requires few { All (λ items. length items.items ≤ most_scan_bytes) texts.now }
    ensures bytes { Gives (λ found. map (λ keys. keys.bytes) found.items) result
        (collect (bytes_of 30) 1 (map (λ items. map (λ item. item.now) items.items) texts.now)) }
    ensures many { IfOk result (λ found. length found.items ≡ length texts.now) }
    ensures room { IfOk result (λ found. All (λ keys. keys.room ≡ 0) found.items) }
    ensures few { IfOk result
        (λ found. All (λ keys. length keys.bytes ≤ most_scan_bytes) found.items) }
{
    let mut found = Vec::new(alloc);
    for (i, items) in texts.iter().enumerate() {
        let keys = item_bytes(alloc, FURTHER_SCAN_BYTE, i as u32 + 1, items.as_slice())?;
        found.push(keys)?;
    }
    Ok(found)
}
