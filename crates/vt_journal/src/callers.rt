//! The words of callers.
ghost use Rattle.std.specs.Prelude.{◌≡◌, ◌<◌, ◌≤◌, false, true, [], ◌∷◌, decimal, IfSome};
ghost use Rattle.std.specs.Bool.{OnFalse, OnTrue};
ghost use Rattle.std.specs.List.{All};
ghost use Rattle.vt_base.specs.Bytes.{Adds};
ghost use Rattle.vt_base.specs.Limits.{callers, processes};
ghost use Rattle.vt_journal.specs.Callers.{HasWord, caller_word, is_process, keyboard_number};
ghost use Rattle.vt_journal.specs.Readers.{Finds, Takes};

use crate::adding::{add_lettered, add_number};
use crate::numbers::number_of;
use crate::words::Words;
use std::alloc::Global;
use vt_base::{Bytes, CallerNo, NoMemory};
use vt_events::Entry;

/// The greatest number of a process.
const PROCESSES: u16 = 64;

/// The greatest number of a keyboard.
const LAST_KEYBOARD: u64 = 3;

/// Whether version 1 has a word for the caller of each entry: no caller is a keyboard after the first.
pub fn are_numbered(entries: &[Entry]) -> bool
    ensures yes { OnTrue result (All (λ entry. entry.caller ≤ processes) entries.now) }
    ensures no { OnFalse result (¬ All (λ entry. entry.caller ≤ processes) entries.now) }
{
    for entry in entries {
        if PROCESSES < entry.caller.get() {
            return false;
        }
    }
    true
}

/// Adds the word of the caller in that version.
pub fn add_caller(
    alloc: Global,
    text: &mut Bytes,
    caller: CallerNo,
    version: u8,
) -> Result<(), NoMemory>
    ensures adds { Adds (caller_word version caller) text.old text.new result }
    ensures known { caller < callers }
{
    let n = caller.get();
    if version == 1 {
        return add_number(alloc, text, u64::from(n));
    }
    if 1 <= n && n <= PROCESSES {
        return add_lettered(alloc, text, b'p', u64::from(n));
    }
    add_lettered(alloc, text, b'k', u64::from(n.saturating_sub(PROCESSES)))
}

/// The caller that the next word names.
pub(crate) fn take_caller(words: &mut Words, version: u8) -> Option<CallerNo>
    ensures takes { Takes (λ p. caller_word version p ∷ []) (HasWord version) words.old words.new result }
    ensures fit { IfSome result (HasWord version) }
{
    let word = words.next()?;
    read_caller(word, version)
}

// The caller whose word this is.
fn read_caller(word: &[u8], version: u8) -> Option<CallerNo>
    ensures finds { Finds (caller_word version) (HasWord version) word.now result }
    ensures fit { IfSome result (HasWord version) }
{
    if version == 1 {
        return read_numbered(word);
    }
    let (letter, digits) = word.split_first()?;
    match *letter {
        b'p' => read_process(digits),
        b'k' => read_keyboard(digits),
        _ => None,
    }
}

// The caller of that number.
fn read_numbered(digits: &[u8]) -> Option<CallerNo>
    ensures finds { Finds decimal (λ p. p ≤ PROCESSES) digits.now result }
    ensures fit { IfSome result (λ p. p ≤ PROCESSES) }
{
    let n = number_of(digits, u64::from(PROCESSES))?;
    Some(CallerNo::numbered(n as u16))
}

// The process of that number.
fn read_process(digits: &[u8]) -> Option<CallerNo>
    ensures finds { Finds decimal (λ p. is_process p ≡ true) digits.now result }
    ensures fit { IfSome result (λ p. is_process p ≡ true) }
{
    let caller = read_numbered(digits)?;
    if caller.get() == 0 {
        return None;
    }
    Some(caller)
}

// The keyboard of that number.
fn read_keyboard(digits: &[u8]) -> Option<CallerNo>
    ensures finds { Finds (λ p. decimal (keyboard_number p)) (λ p. (p < callers) × (is_process p ≡ false))
        digits.now result }
    ensures fit { IfSome result (λ p. (p < callers) × (is_process p ≡ false)) }
{
    let n = number_of(digits, LAST_KEYBOARD)?;
    Some(CallerNo::keyboard(n as u8))
}
