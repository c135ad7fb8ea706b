//! Last lines.
ghost use Rattle.std.specs.Prelude.{◌∷◌, codes, IfSome};
ghost use Rattle.vt_journal.specs.Journal.{tail_words};
ghost use Rattle.vt_journal.specs.Says.{IsFitTail};
ghost use Rattle.vt_journal.specs.Readers.{Finds, Takes};
ghost use Rattle.vt_journal.specs.Words.{joined_by_blanks};

use crate::numbers::take_number;
use crate::words::Words;
use crate::{Full, Tail};

const LONG: u64 = 4_294_967_295;

/// The end of a journal, from its last line.
pub(crate) fn read_tail(line: &[u8]) -> Option<Tail>
    ensures finds { Finds (λ end. joined_by_blanks (tail_words end)) IsFitTail line.now result }
    ensures fit { IfSome result IsFitTail }
{
    let mut words = Words::of(line);
    let end = take_tail(&mut words);
    words.if_none_left(end)
}

// The end that the next words spell.
fn take_tail(words: &mut Words) -> Option<Tail>
    ensures takes { Takes tail_words IsFitTail words.old words.new result }
    ensures fit { IfSome result IsFitTail }
{
    let name = words.next()?;
    if name == b"%end".as_slice() {
        return take_end(words);
    }
    if name == b"%full".as_slice() {
        return take_full(words);
    }
    None
}

// The end with the numbers after `%end`.
fn take_end(words: &mut Words) -> Option<Tail>
    ensures takes { Takes tail_words IsFitTail (codes "%end" ∷ words.old) words.new result }
    ensures fit { IfSome result IsFitTail }
{
    let events = take_number(words, LONG)?;
    let bytes = take_number(words, u64::MAX)?;
    Some(Tail::End {
        events: events as u32,
        bytes,
    })
}

// The end with the numbers after `%full`.
fn take_full(words: &mut Words) -> Option<Tail>
    ensures takes { Takes tail_words IsFitTail (codes "%full" ∷ words.old) words.new result }
    ensures fit { IfSome result IsFitTail }
{
    let events = take_number(words, LONG)?;
    let bytes = take_number(words, u64::MAX)?;
    let charge = take_number(words, LONG)?;
    Some(Tail::Full(Full {
        events: events as u32,
        bytes,
        charge: charge as u32,
    }))
}
