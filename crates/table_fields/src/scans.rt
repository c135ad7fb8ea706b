//! Scan bytes.
ghost use Rattle.std.specs.Prelude.{◌≡◌, ◌≤◌, length, map, IfOk};
ghost use Rattle.table_fields.specs.Checked.{Gives};
ghost use Rattle.table_fields.specs.Fields.{byte_of, bytes_of, few_items_of, items_of, most_scan_bytes, scan_bytes_of};

use crate::fault::{TableError, refused};
use crate::fault_code::{SCAN_BYTE, TOO_MANY};
use std::alloc::{AllocError, Global};
use vt_base::{Bytes, hex_value};

// The most scan bytes of a table. This project's own.
const MOST_SCAN_BYTES: usize = 100_000;

/// The scan bytes of a text: two hexadecimal digits each, with one blank between them. Fault 29 if
/// there are more than 100,000, 27 at the first item that is none.
pub fn scan_bytes(alloc: Global, text: &str, part: u32, key: u32) -> Result<Bytes, TableError>
    ensures bytes { Gives (λ b. b.bytes) result (scan_bytes_of part key text.now) }
    ensures room { IfOk result (λ b. b.room ≡ 0) }
    ensures most { IfOk result (λ b. length b.bytes ≤ most_scan_bytes) }
{
    let items = scan_items(alloc, text, part, key)?;
    item_bytes(alloc, SCAN_BYTE, part, items.as_slice())
}

/// The items of a text of scan bytes: the parts between its single blanks. Fault 29 if there are more
/// than 100,000.
pub fn scan_items(alloc: Global, text: &str, part: u32, key: u32) -> Result<Vec<&str>, TableError>
    ensures items { Gives (λ items. map (λ item. item.now) items.items) result
        (few_items_of part key text.now) }
    ensures few { IfOk result (λ items. length items.items ≤ most_scan_bytes) }
{
    let items = cut_items(alloc, text)?;
    if items.len() > MOST_SCAN_BYTES {
        return Err(refused(TOO_MANY, part, key));
    }
    Ok(items)
}

// The parts between single blanks; the empty text has none.
fn cut_items(alloc: Global, text: &str) -> Result<Vec<&str>, AllocError>
    ensures { IfOk result (λ items. map (λ item. item.now) items.items ≡ items_of text.now) }
{
    if text.is_empty() {
        return Ok(Vec::new(alloc));
    }
    Ok(text.split(' ').collect(alloc)?)
}

/// The bytes of items of two hexadecimal digits each. A fault of this kind at the first that is none.
pub fn item_bytes(alloc: Global, kind: u16, part: u32, items: &[&str]) -> Result<Bytes, TableError>
    requires { length items.now ≤ most_scan_bytes }
    ensures bytes { Gives (λ b. b.bytes) result
        (bytes_of kind part (map (λ item. item.now) items.now)) }
    ensures room { IfOk result (λ b. b.room ≡ 0) }
    ensures many { IfOk result (λ b. length b.bytes ≡ length items.now) }
{
    let mut bytes = Bytes::with_room(alloc, items.len())?;
    for (i, item) in items.iter().enumerate() {
        let Some(b) = byte_of(item.as_bytes()) else {
            return Err(refused(kind, part, i as u32 + 1));
        };
        bytes.append(&[b]);
    }
    Ok(bytes)
}

// The byte of two hexadecimal digits.
fn byte_of(item: &[u8]) -> Option<u8>
    ensures { result ≡ byte_of item.now }
{
    let [high, low] = item else { return None };
    let high = hex_value(*high)?;
    let low = hex_value(*low)?;
    Some(16 * high + low)
}
