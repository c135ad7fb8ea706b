//! The text of a certificate.
ghost use Rattle.std.specs.Prelude.{◌≡◌, ◌++◌, IfOk, OnOk};
ghost use Rattle.std.specs.List.{All};
ghost use Rattle.vt_explain.specs.CertText.{IsFit, IsFitAsk, IsFitCause, asked_words, cause_words, cert_text, item_words};
ghost use Rattle.vt_journal.specs.Journal.{line_text};
ghost use Rattle.vt_journal.specs.Text.{blank_before_each};

use crate::{HopCause, HopWhy};
use std::alloc::Global;
use vt_base::{Bytes, CallerNo, NoMemory, Signal};
use vt_journal::{add, add_next, add_number};

/// The certificate's text (docs/reference/explain.md). It can be read again.
pub fn print_cert(alloc: Global, c: &[HopWhy]) -> Result<Bytes, NoMemory>
    ensures text { IfOk result (λ text. text.bytes ≡ cert_text c.now) }
    ensures fit { OnOk result (All IsFit c.now) }
{
    let mut text = Bytes::new(alloc);
    add(alloc, &mut text, b"%explain")?;
    add_next(alloc, &mut text, c.len() as u64)?;
    add(alloc, &mut text, b"\n")?;
    for w in c {
        add_item(alloc, &mut text, w)?;
    }
    Ok(text)
}

// Adds the line of an item.
fn add_item(alloc: Global, text: &mut Bytes, w: &HopWhy) -> Result<(), NoMemory>
    ensures ok { OnOk result (text.new.bytes ≡ text.old.bytes ++ line_text (item_words w.now)) }
    ensures fit { OnOk result (IsFit w.now) }
{
    add_number(alloc, text, u64::from(w.at))?;
    add_next(alloc, text, u64::from(w.nth))?;
    add_next(alloc, text, u64::from(w.from.get()))?;
    add_next(alloc, text, u64::from(w.to.get()))?;
    add_cause(alloc, text, &w.cause)?;
    add(alloc, text, b"\n")?;
    Ok(())
}

// Adds the words of a cause, each after a blank.
fn add_cause(alloc: Global, text: &mut Bytes, cause: &HopCause) -> Result<(), NoMemory>
    ensures ok { OnOk result (text.new.bytes ≡ text.old.bytes ++ blank_before_each (cause_words cause.now)) }
    ensures fit { OnOk result (IsFitCause cause.now) }
{
    match cause {
        HopCause::Free => add(alloc, text, b" free"),
        HopCause::Released {
            owner,
            asked,
            signal,
        } => add_ask(alloc, text, b" released", *owner, *asked, *signal),
        HopCause::Died {
            owner,
            asked,
            signal,
        } => add_ask(alloc, text, b" died", *owner, *asked, *signal),
    }
}

// Adds how the display was let go, the owner, the entry that asked it, and the signal.
fn add_ask(
    alloc: Global,
    text: &mut Bytes,
    how: &[u8],
    owner: CallerNo,
    asked: u32,
    signal: Signal,
) -> Result<(), NoMemory>
    ensures ok { OnOk result
        (text.new.bytes ≡ text.old.bytes ++ how.now ++ blank_before_each (asked_words owner asked signal)) }
    ensures fit { IsFitAsk owner asked signal }
{
    add(alloc, text, how)?;
    add_next(alloc, text, u64::from(owner.get()))?;
    add(alloc, text, b" asked")?;
    add_next(alloc, text, u64::from(asked))?;
    add(alloc, text, b" signal")?;
    add_next(alloc, text, u64::from(signal.get()))?;
    Ok(())
}
