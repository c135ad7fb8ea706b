//! Numbers, sets, decimal words, byte texts, and the errors as texts.
use super::checks::{check, check_made};
use std::alloc::Global;
use vt_base::{
    Bytes, CallerNo, ConsoleNo, Errno, Inval, NoMemory, SigSet, Signal, hex_digit, hex_value,
    lower_hex_value, parse_decimal,
};

// Places in the list of all consoles, and their numbers.
const CONSOLES: &[(usize, u16)] = &[(0, 1), (62, 63)];

fn is_console(place: usize, n: u16) -> bool {
    ConsoleNo::all()[place.min(62)].get() == n
}

// Places in the list of all callers, their numbers, and whether they are keyboards.
const CALLERS: &[(usize, u16, bool)] = &[(0, 0, true), (64, 64, false), (67, 67, true)];

fn is_caller(place: usize, n: u16, keyboard: bool) -> bool {
    let caller = CallerNo::all()[place.min(67)];
    caller.get() == n && caller.is_keyboard() == keyboard
}

fn are_keyboards() -> bool {
    let callers = CallerNo::all();
    CallerNo::keyboards() == [callers[0], callers[65], callers[66], callers[67]]
}

fn begin_with_one() -> bool {
    CallerNo::processes()[0].get() == 1 && CallerNo::KEYBOARD.get() == 0
}

#[test]
fn numbers_are_listed_rising(rt: HostRuntime) {
    for &(place, n) in CONSOLES {
        check(&rt, is_console(place, n), u32::from(n));
    }
    for &(place, n, keyboard) in CALLERS {
        check(&rt, is_caller(place, n, keyboard), u32::from(n));
    }
    check(&rt, are_keyboards(), "keyboards");
    check(&rt, begin_with_one(), "processes");
}

// Keyboards, and their callers.
const KEYBOARDS: &[(u8, u16)] = &[(0, 0), (1, 65), (2, 66), (3, 67)];

fn is_keyboard(k: u8, n: u16) -> bool {
    k < 4 && CallerNo::keyboard(k).get() == n && keyboard_of(n) == Some(k)
}

// The keyboard of the caller of this number.
fn keyboard_of(n: u16) -> Option<u8> {
    CallerNo::new(n)?.keyboard_no()
}

#[test]
fn keyboards_are_named(rt: HostRuntime) {
    for &(k, n) in KEYBOARDS {
        check(&rt, is_keyboard(k, n), u32::from(n));
    }
    check(&rt, CallerNo::new(64).is_some(), 64);
    check(&rt, keyboard_of(64).is_none(), 64);
    check(&rt, CallerNo::new(68).is_none(), 68);
}

// A byte, its value as a hexadecimal digit, and as one in lower case.
const DIGITS: &[(u8, Option<u8>, Option<u8>)] = &[
    (b'0', Some(0), Some(0)),
    (b'9', Some(9), Some(9)),
    (b'a', Some(10), Some(10)),
    (b'f', Some(15), Some(15)),
    (b'A', Some(10), None),
    (b'F', Some(15), None),
    (b'G', None, None),
    (b'g', None, None),
    (b'/', None, None),
    (b':', None, None),
];

#[test]
fn hexadecimal_digits_are_read(rt: HostRuntime) {
    for &(b, either, lower) in DIGITS {
        let is_read = hex_value(b) == either && lower_hex_value(b) == lower;
        check(&rt, is_read, u32::from(b));
    }
}

// Numbers below 16, and their digits.
const SPELLED: &[(u8, u8)] = &[(0, b'0'), (9, b'9'), (10, b'a'), (15, b'f')];

#[test]
fn hexadecimal_digits_are_written(rt: HostRuntime) {
    for &(n, digit) in SPELLED {
        check(&rt, hex_digit(n.min(15)) == digit, u32::from(n));
    }
}

// A number, and the first signal from it on in the set of 1 and 64; 0 if there is none.
const FIRSTS: &[(u16, u16)] = &[(1, 1), (2, 64), (64, 64), (65, 0)];

fn first_from(set: SigSet, n: u16) -> u16 {
    match set.first_from(n.max(1)) {
        Some(s) => s.get(),
        None => 0,
    }
}

fn set_of(n: u16) -> SigSet {
    match Signal::new(n) {
        Some(s) => SigSet::empty().with(s),
        None => SigSet::empty(),
    }
}

#[test]
fn signals_of_a_set_are_found(rt: HostRuntime) {
    let set = SigSet::from_bits(0x8000_0000_0000_0001);
    for &(n, first) in FIRSTS {
        check(&rt, first_from(set, n) == first, u32::from(n));
    }
    check(&rt, first_from(set_of(1), 1) == 1, "the one signal");
    check(&rt, first_from(set_of(1), 2) == 0, "past the one signal");
}

// errno(3) on Linux: EPERM is 1, ENOTTY 25, and ENOENT, which is 2, isn't among these.
const ERRORS: &[(u16, Option<Errno>)] = &[
    (1, Some(Errno::Perm)),
    (25, Some(Errno::Notty)),
    (2, None),
    (0, None),
];

#[test]
fn errors_are_found_by_number(rt: HostRuntime) {
    for &(n, found) in ERRORS {
        check(&rt, Errno::of(n) == found, u32::from(n));
    }
}

// Words, and their numbers up to 65,535.
const WORDS: &[(&[u8], Option<u64>)] = &[
    (b"0", Some(0)),
    (b"7", Some(7)),
    (b"65535", Some(65_535)),
    (b"65536", None),
    (b"", None),
    (b"07", None),
    (b"+7", None),
    (b"-7", None),
    (b"7 ", None),
    (b"\xC3", None),
];

#[test]
fn knows_one_spelling(rt: HostRuntime) {
    for &(word, n) in WORDS {
        check(&rt, parse_decimal(word, 65_535) == n, word);
    }
}

fn grow(alloc: Global, text: &mut Bytes) -> Result<(), NoMemory> {
    text.grow(alloc, 3)?;
    text.append(b"c");
    text.push(b'd');
    Ok(())
}

fn grows(alloc: Global) -> Result<bool, NoMemory> {
    let mut text = Bytes::from_slice(alloc, b"ab")?;
    let was_full = text.room() == 0;
    grow(alloc, &mut text)?;
    Ok(was_full && text.as_slice() == b"abcd".as_slice() && text.room() == 1)
}

fn has_room(alloc: Global) -> Result<bool, NoMemory> {
    Ok(Bytes::with_room(alloc, 5)?.room() == 5)
}

#[test]
fn grows_by_what_is_asked(rt: HostRuntime) {
    check_made(&rt, grows(rt.alloc()), "a text that grew");
    check_made(&rt, has_room(rt.alloc()), "a text with room");
}

// Numbers, and their digits after a letter.
const DECIMALS: &[(u64, &[u8])] = &[
    (0, b"n0"),
    (9, b"n9"),
    (10, b"n10"),
    (255, b"n255"),
    (65_535, b"n65535"),
    (18_446_744_073_709_551_615, b"n18446744073709551615"),
];

fn is_decimal(alloc: Global, n: u64, wanted: &[u8]) -> Result<bool, NoMemory> {
    let mut text = Bytes::from_slice(alloc, b"n")?;
    text.add_decimal(alloc, n)?;
    Ok(text.as_slice() == wanted)
}

#[test]
fn numbers_are_added(rt: HostRuntime) {
    for &(n, wanted) in DECIMALS {
        check_made(&rt, is_decimal(rt.alloc(), n, wanted), wanted);
    }
}

// Bytes, their text, and their hexadecimal text, each after a letter.
const ADDED: &[(&[u8], &[u8], &[u8])] = &[
    (b"", b"h", b"h"),
    (b"\x00", b"h\x00", b"h00"),
    (b"\x09\x0A", b"h\x09\x0A", b"h090a"),
    (b"\xFF", b"h\xFF", b"hff"),
    (b"\xFF\xFF", b"h\xFF\xFF", b"hffff"),
];

fn is_appended(alloc: Global, b: &[u8], wanted: &[u8]) -> Result<bool, NoMemory> {
    let mut text = Bytes::from_slice(alloc, b"h")?;
    text.add(alloc, b)?;
    Ok(text.as_slice() == wanted)
}

fn is_hexadecimal(alloc: Global, b: &[u8], wanted: &[u8]) -> Result<bool, NoMemory> {
    let mut text = Bytes::from_slice(alloc, b"h")?;
    text.add_hex(alloc, b)?;
    Ok(text.as_slice() == wanted)
}

#[test]
fn bytes_are_added(rt: HostRuntime) {
    for &(b, wanted, digits) in ADDED {
        check_made(&rt, is_appended(rt.alloc(), b, wanted), wanted);
        check_made(&rt, is_hexadecimal(rt.alloc(), b, digits), digits);
    }
}

// The texts of errno(3), as glibc's strerror(3) gives them.
const TEXTS: &[(Errno, &str)] = &[
    (Errno::Perm, "Operation not permitted"),
    (Errno::Srch, "No such process"),
    (Errno::Intr, "Interrupted system call"),
    (Errno::Nxio, "No such device or address"),
    (Errno::Badf, "Bad file descriptor"),
    (Errno::Again, "Resource temporarily unavailable"),
    (Errno::Busy, "Device or resource busy"),
    (Errno::Inval, "Invalid argument"),
    (Errno::Notty, "Inappropriate ioctl for device"),
];

fn is_told(alloc: Global, errno: Errno, text: &str) -> Result<bool, NoMemory> {
    Ok(errno.to_string(alloc)?.as_str() == text)
}

fn tells_inval(alloc: Global) -> Result<bool, NoMemory> {
    Ok(Inval.to_string(alloc)?.as_str() == "Invalid argument")
}

fn tells_no_memory(alloc: Global) -> Result<bool, NoMemory> {
    Ok(NoMemory.to_string(alloc)?.as_str() == "no memory")
}

#[test]
fn errors_have_texts(rt: HostRuntime) {
    for &(errno, text) in TEXTS {
        check_made(&rt, is_told(rt.alloc(), errno, text), text);
    }
    check_made(&rt, tells_inval(rt.alloc()), "Inval");
    check_made(&rt, tells_no_memory(rt.alloc()), "NoMemory");
}
