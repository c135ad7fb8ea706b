//! Certificates read from their texts.
ghost use Rattle.std.specs.Prelude.{◌≡◌, ◌≢◌, ◌≤◌, ℕ, List, [], ◌∷◌, ◌++◌, Result, IfSome, IfNone, OnOk};
ghost use Rattle.vt_explain.specs.CertText.{CertSays, IsFit, IsNoHead, IsNoItem, head_words, item_words};
ghost use Rattle.vt_explain.specs.Reading.{IsFaultAt, Reads};
ghost use Rattle.vt_explain.specs.declared.hop_why.HopWhy.{HopWhy};
ghost use Rattle.vt_journal.specs.Journal.{line_text};

use crate::item_lines::{read_count, read_item};
use crate::{CertError, HopWhy};
use std::alloc::Global;
use vt_base::NoMemory;
use vt_journal::cut_line;

/// The greatest number of a line that a fault can name.
const GREATEST_LINE: usize = 4_294_967_295;

/// The items of the text, which have one spelling, or the number of the first line that isn't well formed, at most
/// 4,294,967,295.
#[tactic(auto, using(crate::proofs::Certs::one_cert))]
pub fn read_cert(alloc: Global, text: &[u8]) -> Result<Vec<HopWhy>, CertError>
    ensures says { Reads result (CertSays text.now) }
    ensures one { (said : Result (List HopWhy) ℕ) → CertSays text.now said
        → Reads result (λ s. s ≡ said) }
{
    read_text(alloc, text)
}

fn read_text(alloc: Global, text: &[u8]) -> Result<Vec<HopWhy>, CertError>
    ensures { Reads result (CertSays text.now) }
{
    match read_head(text) {
        Some(head) => read_items(alloc, head.count, head.behind),
        None => Err(CertError::Fault { line: 1 }),
    }
}

// The number in the first line, and the text after the line.
#[derive(Clone, Copy)]
struct CertHeader<'a> {
    count: u32,
    behind: &'a [u8],
}

fn read_head(text: &[u8]) -> Option<CertHeader<'_>>
    ensures found { IfSome result
        (λ h. text.now ≡ line_text (head_words h.count) ++ h.behind.now) }
    ensures none { IfNone result (IsNoHead text.now) }
{
    let cut = cut_line(text)?;
    let count = read_count(cut.line)?;
    Some(CertHeader {
        count,
        behind: cut.behind,
    })
}

// The item of the first line, and the text after the line.
#[derive(Clone, Copy)]
struct ParsedItem<'a> {
    item: HopWhy,
    behind: &'a [u8],
}

fn read_line(text: &[u8]) -> Option<ParsedItem<'_>>
    ensures found { IfSome result
        (λ n. text.now ≡ line_text (item_words n.item) ++ n.behind.now) }
    ensures fit { IfSome result (λ n. IsFit n.item) }
    ensures none { IfNone result (IsNoItem text.now) }
{
    let cut = cut_line(text)?;
    let item = read_item(cut.line)?;
    Some(ParsedItem {
        item,
        behind: cut.behind,
    })
}

// The items of the lines after the first one, which has their number.
fn read_items(alloc: Global, count: u32, text: &[u8]) -> Result<Vec<HopWhy>, CertError>
    ensures { (whole : List ℕ) → whole ≡ line_text (head_words count) ++ text.now
        → Reads result (CertSays whole) }
{
    let mut items = Vec::new(alloc);
    let mut rest = text;
    while !rest.is_empty() {
        let Some(next) = read_line(rest) else {
            return Err(fault_at(items.as_slice().len() + 2));
        };
        push(&mut items, next.item)?;
        rest = next.behind;
    }
    if items.as_slice().len() != count as usize {
        return Err(fault_at(items.as_slice().len() + 1));
    }
    Ok(items)
}

fn push(items: &mut Vec<HopWhy>, item: HopWhy) -> Result<(), NoMemory>
    ensures { OnOk result (items.new.items ≡ items.old.items ++ item ∷ []) }
{
    items.extend_from_slice(&[item])?;
    Ok(())
}

// A fault in that line. A line past the greatest number is named by that number.
fn fault_at(line: usize) -> CertError
    ensures { IsFaultAt line result }
{
    let line = line.min(GREATEST_LINE) as u32;
    CertError::Fault { line }
}
