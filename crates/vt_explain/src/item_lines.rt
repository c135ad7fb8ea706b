//! Items read from their lines.
ghost use Rattle.std.specs.Prelude.{◌≡◌, ◌≢◌, ◌≤◌, ℕ, List, ◌∷◌, ◌++◌, codes, IfSome, IfNone};
ghost use Rattle.vt_explain.specs.CertText.{IsFit, IsFitAsk, IsFitCause, asked_words, cause_words, head_words, item_words};
ghost use Rattle.vt_journal.specs.Readers.{Finds, Takes};
ghost use Rattle.vt_journal.specs.Words.{joined_by_blanks};

use crate::numbers::{take_caller, take_console, take_number, take_signal};
use crate::{HopCause, HopWhy};
use vt_base::{CallerNo, Signal};
use vt_journal::{Words, take_word};

/// The number of items in the first line of a certificate.
pub(crate) fn read_count(line: &[u8]) -> Option<u32>
    ensures { Finds (λ n. joined_by_blanks (head_words n)) (λ n. n ≤ 4_294_967_295) line.now result }
{
    let mut words = Words::of(line);
    let count = take_head(&mut words);
    words.if_none_left(count)
}

// The number after the name of the first line.
fn take_head(words: &mut Words) -> Option<u32>
    ensures takes { Takes head_words (λ n. n ≤ 4_294_967_295) words.old words.new result }
    ensures fit { IfSome result (λ n. n ≤ 4_294_967_295) }
{
    if !take_word(words, b"%explain") {
        return None;
    }
    take_number(words)
}

/// The item that the line spells.
pub(crate) fn read_item(line: &[u8]) -> Option<HopWhy>
    ensures finds { Finds (λ w. joined_by_blanks (item_words w)) IsFit line.now result }
    ensures fit { IfSome result IsFit }
{
    let mut words = Words::of(line);
    let item = take_item(&mut words)?;
    if words.next().is_some() {
        return None;
    }
    Some(item)
}

// The item that the next words are.
fn take_item(words: &mut Words) -> Option<HopWhy>
    ensures takes { Takes item_words IsFit words.old words.new result }
    ensures fit { IfSome result IsFit }
{
    let at = take_number(words)?;
    let nth = take_number(words)?;
    let from = take_console(words)?;
    let to = take_console(words)?;
    let cause = take_cause(words)?;
    Some(HopWhy {
        at,
        nth,
        from,
        to,
        cause,
    })
}

// The cause that the next words are.
fn take_cause(words: &mut Words) -> Option<HopCause>
    ensures takes { Takes cause_words IsFitCause words.old words.new result }
    ensures fit { IfSome result IsFitCause }
{
    let name = words.next()?;
    if name == b"free".as_slice() {
        return Some(HopCause::Free);
    }
    if name == b"released".as_slice() {
        return take_release(words);
    }
    if name == b"died".as_slice() {
        return take_death(words);
    }
    None
}

// The cause in the words after `released`.
fn take_release(words: &mut Words) -> Option<HopCause>
    ensures takes { Takes cause_words IsFitCause (codes "released" ∷ words.old) words.new result }
    ensures fit { IfSome result IsFitCause }
{
    let Ask {
        owner,
        asked,
        signal,
    } = take_ask(words)?;
    Some(HopCause::Released {
        owner,
        asked,
        signal,
    })
}

// The cause in the words after `died`.
fn take_death(words: &mut Words) -> Option<HopCause>
    ensures takes { Takes cause_words IsFitCause (codes "died" ∷ words.old) words.new result }
    ensures fit { IfSome result IsFitCause }
{
    let Ask {
        owner,
        asked,
        signal,
    } = take_ask(words)?;
    Some(HopCause::Died {
        owner,
        asked,
        signal,
    })
}

// The owner that was asked, the entry that asked it, and the signal.
#[derive(Clone, Copy)]
struct Ask {
    owner: CallerNo,
    asked: u32,
    signal: Signal,
}

// The owner, the entry and the signal that the next words are.
fn take_ask(words: &mut Words) -> Option<Ask>
    ensures found { IfSome result
        (λ a. words.old ≡ asked_words a.owner a.asked a.signal ++ words.new) }
    ensures fit { IfSome result (λ a. IsFitAsk a.owner a.asked a.signal) }
    ensures none { IfNone result ((owner asked signal : ℕ) (rest : List (List ℕ))
        → IsFitAsk owner asked signal → words.old ≢ asked_words owner asked signal ++ rest) }
{
    let owner = take_caller(words)?;
    if !take_word(words, b"asked") {
        return None;
    }
    let asked = take_number(words)?;
    if !take_word(words, b"signal") {
        return None;
    }
    let signal = take_signal(words)?;
    Some(Ask {
        owner,
        asked,
        signal,
    })
}
