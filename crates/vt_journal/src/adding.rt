//! Adds words to a text, with room for them.
ghost use Rattle.std.specs.Prelude.{◌≡◌, ◌<◌, ◌≤◌, ◌^◌, [], ◌∷◌, decimal, map, OnOk, OnErr};
ghost use Rattle.std.specs.List.{All};
ghost use Rattle.vt_base.specs.Bytes.{Adds};
ghost use Rattle.vt_journal.specs.Hex.{hex_text};
ghost use Rattle.vt_journal.specs.Text.{AddsPart, blank_before_each};

use crate::add_hex;
use itoa::Buffer;
use std::alloc::Global;
use vt_base::{Bytes, NoMemory};

/// The least number of bytes that memory is taken for.
const ROOM_BYTES: usize = 4_096;

/// Makes room for `n` more bytes. If that takes memory, it makes room for some later bytes too.
#[inline(always)]
pub(crate) fn make_room(alloc: Global, text: &mut Bytes, n: usize) -> Result<(), NoMemory>
    ensures bytes { text.new.bytes ≡ text.old.bytes }
    ensures ok { OnOk result (n ≤ text.new.room) }
    ensures err { OnErr result (text.new ≡ text.old) }
{
    if n <= text.room() {
        return Ok(());
    }
    take_room(alloc, text, n)
}

// Takes memory for `n` more bytes and for some later ones.
#[inline(never)]
fn take_room(alloc: Global, text: &mut Bytes, n: usize) -> Result<(), NoMemory>
    ensures bytes { text.new.bytes ≡ text.old.bytes }
    ensures ok { OnOk result (n ≤ text.new.room) }
    ensures err { OnErr result (text.new ≡ text.old) }
{
    text.grow(alloc, n.max(ROOM_BYTES))
}

/// Adds the bytes.
pub fn add(alloc: Global, text: &mut Bytes, b: &[u8]) -> Result<(), NoMemory>
    ensures { Adds b.now text.old text.new result }
{
    text.add(alloc, b)
}

/// Adds the number.
pub fn add_number(alloc: Global, text: &mut Bytes, n: u64) -> Result<(), NoMemory>
    ensures { Adds (decimal n) text.old text.new result }
{
    text.add_decimal(alloc, n)
}

/// Adds a blank and the word.
pub(crate) fn add_word(alloc: Global, text: &mut Bytes, word: &[u8]) -> Result<(), NoMemory>
    ensures { Adds (0x20 ∷ word.now) text.old text.new result }
{
    make_room(alloc, text, 1 + word.len())?;
    text.push(b' ');
    text.append(word);
    Ok(())
}

/// Adds the end of a line.
pub(crate) fn add_end(alloc: Global, text: &mut Bytes) -> Result<(), NoMemory>
    ensures { Adds (0x0A ∷ []) text.old text.new result }
{
    add_byte(alloc, text, b'\n')
}

// Adds the byte.
#[inline(always)]
fn add_byte(alloc: Global, text: &mut Bytes, b: u8) -> Result<(), NoMemory>
    ensures { Adds (b ∷ []) text.old text.new result }
{
    make_room(alloc, text, 1)?;
    text.push(b);
    Ok(())
}

/// Adds a blank and the number in decimal.
pub fn add_next(alloc: Global, text: &mut Bytes, n: u64) -> Result<(), NoMemory>
    ensures { Adds (0x20 ∷ decimal n) text.old text.new result }
{
    add_lettered(alloc, text, b' ', n)
}

/// Adds the letter and the number in decimal.
#[inline(always)]
pub(crate) fn add_lettered(
    alloc: Global,
    text: &mut Bytes,
    letter: u8,
    n: u64,
) -> Result<(), NoMemory>
    ensures { Adds (letter ∷ decimal n) text.old text.new result }
{
    if n >= 1_000 {
        return add_long(alloc, text, letter, n);
    }
    make_room(alloc, text, 4)?;
    if n < 10 {
        text.push(letter);
        text.push(b'0' + n as u8);
        return Ok(());
    }
    if n < 100 {
        text.append(&[letter, b'0' + (n / 10) as u8, b'0' + (n % 10) as u8]);
        return Ok(());
    }
    let (high, low) = (n / 100, n % 100);
    text.append(&[
        letter,
        b'0' + high as u8,
        b'0' + (low / 10) as u8,
        b'0' + (low % 10) as u8,
    ]);
    Ok(())
}

// Adds the letter and a number of any length.
#[inline(never)]
fn add_long(alloc: Global, text: &mut Bytes, letter: u8, n: u64) -> Result<(), NoMemory>
    ensures { Adds (letter ∷ decimal n) text.old text.new result }
{
    let mut buffer = Buffer::new();
    let digits = buffer.format(n).as_bytes();
    make_room(alloc, text, 1 + digits.len())?;
    text.push(letter);
    text.append(digits);
    Ok(())
}

/// Adds the name and the numbers, with a blank before each.
pub(crate) fn add_named(
    alloc: Global,
    text: &mut Bytes,
    name: &[u8],
    numbers: &[u16],
) -> Result<(), NoMemory>
    ensures adds { AddsPart (blank_before_each (name.now ∷ map decimal numbers.now))
        text.old text.new result }
    ensures fit { All (λ n. n < 2 ^ 16) numbers.now }
{
    add_word(alloc, text, name)?;
    for n in numbers {
        add_next(alloc, text, u64::from(*n))?;
    }
    Ok(())
}

/// Adds a blank and the bytes in hexadecimal.
pub(crate) fn add_bytes(alloc: Global, text: &mut Bytes, b: &[u8]) -> Result<(), NoMemory>
    ensures adds { AddsPart (0x20 ∷ hex_text b.now) text.old text.new result }
    ensures fit { All (λ x. x < 2 ^ 8) b.now }
{
    add_byte(alloc, text, b' ')?;
    add_hex(alloc, text, b)?;
    Ok(())
}
