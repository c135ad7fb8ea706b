//! Calls read from their words.
ghost use Rattle.std.specs.Prelude.{◌≡◌, ◌<◌, ◌^◌, ⊤, [], ◌∷◌, Some, None, option_map, if◌then◌else◌, IfOk, IfSome, IfNone};
ghost use Rattle.std.specs.List.{All};
ghost use Rattle.vt_events.specs.Kinds.{name_of};
ghost use Rattle.vt_events.specs.declared.event.Event.{Event};
ghost use Rattle.vt_journal.specs.Readers.{Takes};
ghost use Rattle.vt_journal.specs.Words.{IsFitCall, Spells, event_words, held_words};

use crate::hex::parse_hex;
use crate::numbers::read_numbers;
use crate::words::Words;
use std::alloc::Global;
use vt_base::{Bytes, NoMemory};
use vt_events::{Event, Kind};

/// The call of these words, if they are one.
pub fn read_event(alloc: Global, words: &[u8]) -> Result<Option<Event>, NoMemory>
    ensures found { IfOk result (λ found. IfSome found (Spells words.now)) }
    ensures none { IfOk result (λ found. IfNone found ((e : Event) → ¬ Spells words.now e)) }
    ensures one { IfOk result
        (λ found. IfSome found (λ e. (other : Event) → Spells words.now other → other ≡ e)) }
{
    let mut words = Words::of(words);
    let event = take_event(alloc, &mut words)?;
    Ok(words.if_none_left(event))
}

/// The call that the next words spell.
pub(crate) fn take_event(alloc: Global, words: &mut Words) -> Result<Option<Event>, NoMemory>
    ensures takes { IfOk result (Takes event_words IsFitCall words.old words.new) }
    ensures fit { IfOk result (λ found. IfSome found IsFitCall) }
{
    let Some(kind) = read_kind(words) else {
        return Ok(None);
    };
    let Some(numbers) = read_numbers(words, kind.count()) else {
        return Ok(None);
    };
    let Some(bytes) = read_bytes(alloc, words, kind.holds_bytes())? else {
        return Ok(None);
    };
    if !kind.takes(bytes.as_slice().len()) {
        return Ok(None);
    }
    Ok(Some(kind.call(numbers.as_slice(), bytes)))
}

// The next word as the name of a kind.
fn read_kind(words: &mut Words) -> Option<Kind>
    ensures { Takes (λ kind. name_of kind ∷ []) (λ _. ⊤) words.old words.new result }
{
    let name = words.next()?;
    Kind::named(name)
}

/// Takes the next word as bytes in hexadecimal if the call or the answer holds bytes; otherwise takes no word and
/// returns no bytes.
#[inline(always)]
pub(crate) fn read_bytes(
    alloc: Global,
    words: &mut Words,
    holds: bool,
) -> Result<Option<Bytes>, NoMemory>
    ensures takes { IfOk result
        (λ found. Takes (λ bytes. held_words (if holds then Some bytes else None)) (All (λ x. x < 2 ^ 8))
        words.old words.new (option_map (λ b. b.bytes) found)) }
    ensures fit { IfOk result (λ found. IfSome found (λ b. All (λ x. x < 2 ^ 8) b.bytes)) }
    ensures room { IfOk result (λ found. IfSome found (λ b. b.room ≡ 0)) }
{
    if !holds {
        return Ok(Some(Bytes::new(alloc)));
    }
    let Some(word) = words.next() else {
        return Ok(None);
    };
    parse_hex(alloc, word)
}
