//! Scan bytes, and the keys that their groups name.
use super::checks::check;
use scan_codes::{KeyEvent, Scanner};
use vt_base::Inval;

// The bytes of a group, and the key that the last of them names, with whether that goes down; the others name
// no key.
const GROUPS: &[(&[u8], Option<(u8, bool)>, &str)] = &[
    (b"\x1E", Some((30, true)), "a key goes down"),
    (b"\x1E", Some((30, true)), "and repeats"),
    (b"\x9E", Some((30, false)), "and goes up"),
    (b"\x00", None, "00 names nothing"),
    (b"\xFF", None, "FF names nothing"),
    (b"\x80", None, "80 has no scan number"),
    (b"\x58", Some((88, true)), "the last key without E0"),
    (b"\x59", None, "a scan number without a key"),
    (b"\xE0\x1C", Some((96, true)), "Enter of the pad"),
    (b"\xE0\x9C", Some((96, false)), "and it goes up"),
    (b"\xE0\x00", None, "E0 00 names nothing"),
    (b"\xE0\xE1", None, "after E0 every byte ends the group"),
    (b"\xE1\x1D\x45", Some((119, true)), "Pause goes down"),
    (b"\xE1\x9D\xC5", Some((119, false)), "Pause goes up"),
    (b"\xE1\xE0\x1C", None, "another group of E1 names nothing"),
    (b"\x1C", Some((28, true)), "Enter stands alone"),
];

fn is_event(event: Option<KeyEvent>, wanted: Option<(u8, bool)>) -> bool {
    match (event, wanted) {
        (Some(event), Some((code, down))) => event.code == code && event.down == down,
        (None, None) => true,
        _ => false,
    }
}

fn names(scanner: &mut Scanner, bytes: &[u8], wanted: Option<(u8, bool)>) -> bool {
    let mut event = None;
    for &b in bytes {
        if event.is_some() {
            return false;
        }
        event = scanner.push(b);
    }
    is_event(event, wanted)
}

#[test]
fn groups_name_keys(rt: HostRuntime) {
    let mut scanner = Scanner::start();
    for &(bytes, wanted, what) in GROUPS {
        check(&rt, names(&mut scanner, bytes, wanted), what);
    }
}

// Scan numbers and their keycodes at the start.
const STARTS: &[(u16, u16)] = &[(1, 1), (89, 0), (0x9C, 96), (0xDD, 127), (255, 0)];

// Numbers and keycodes that can't be set.
const REFUSED: &[(u16, u16)] = &[(0, 1), (128, 1), (256, 1), (1, 256)];

// Numbers that have no keycode.
const UNKNOWN: &[u16] = &[0, 128, 256];

#[test]
fn scan_numbers_are_translated(rt: HostRuntime) {
    let mut scanner = Scanner::start();
    for &(scan, code) in STARTS {
        check(&rt, scanner.get(scan) == Ok(code), u32::from(scan));
    }
    for &(scan, code) in REFUSED {
        check(&rt, scanner.set(scan, code) == Err(Inval), u32::from(scan));
    }
    for &scan in UNKNOWN {
        check(&rt, scanner.get(scan) == Err(Inval), u32::from(scan));
    }
}

// Sets two scan numbers, one of them between the bytes of its group.
fn is_translated(scanner: &mut Scanner) -> bool {
    scanner.push(0xE0).is_none()
        && scanner.set(0x9C, 200).is_ok()
        && is_event(scanner.push(0x1C), Some((200, true)))
        && scanner.set(127, 255).is_ok()
        && scanner.get(127) == Ok(255)
        && scanner.push(0xFF).is_none()
}

#[test]
fn a_group_is_translated_at_its_last_byte(rt: HostRuntime) {
    check(&rt, is_translated(&mut Scanner::start()), "E0 1C, and FF");
}
