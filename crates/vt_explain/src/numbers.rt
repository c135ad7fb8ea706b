//! Numbers of a certificate: words that are a number, a console's, a caller's, a signal's.
ghost use Rattle.std.specs.Prelude.{◌≤◌, IfSome};
ghost use Rattle.vt_explain.specs.CertText.{IsConsole};
ghost use Rattle.vt_journal.specs.Readers.{Takes};
ghost use Rattle.vt_journal.specs.Words.{one_number};

use vt_base::{CallerNo, ConsoleNo, Signal};
use vt_journal::Words;

/// The next word as a number of 32 bits.
pub(crate) fn take_number(words: &mut Words) -> Option<u32>
    ensures takes { Takes one_number (λ n. n ≤ 4_294_967_295) words.old words.new result }
    ensures fit { IfSome result (λ n. n ≤ 4_294_967_295) }
{
    let n = vt_journal::take_number(words, u64::from(u32::MAX))?;
    Some(n as u32)
}

/// The next word as the number of a console.
pub(crate) fn take_console(words: &mut Words) -> Option<ConsoleNo>
    ensures takes { Takes one_number IsConsole words.old words.new result }
    ensures fit { IfSome result IsConsole }
{
    let n = take_from_one(words, 63)?;
    Some(ConsoleNo::numbered(n))
}

/// The next word as the number of a caller.
pub(crate) fn take_caller(words: &mut Words) -> Option<CallerNo>
    ensures takes { Takes one_number (λ p. p ≤ 67) words.old words.new result }
    ensures fit { IfSome result (λ p. p ≤ 67) }
{
    let n = vt_journal::take_number(words, 67)?;
    Some(CallerNo::numbered(n as u16))
}

/// The next word as the number of a signal.
pub(crate) fn take_signal(words: &mut Words) -> Option<Signal>
    ensures takes { Takes one_number (λ s. (1 ≤ s) × (s ≤ 64)) words.old words.new result }
    ensures fit { IfSome result (λ s. (1 ≤ s) × (s ≤ 64)) }
{
    let n = take_from_one(words, 64)?;
    Some(Signal::numbered(n))
}

// The next word as a number from 1 to the most.
fn take_from_one(words: &mut Words, most: u16) -> Option<u16>
    ensures takes { Takes one_number (λ n. (1 ≤ n) × (n ≤ most)) words.old words.new result }
    ensures fit { IfSome result (λ n. (1 ≤ n) × (n ≤ most)) }
{
    let n = vt_journal::take_number(words, u64::from(most))?;
    if n == 0 {
        return None;
    }
    Some(n as u16)
}
