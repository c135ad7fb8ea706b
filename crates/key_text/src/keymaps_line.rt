//! Lines `keymaps`, with their ranges of tables.
ghost use Rattle.std.specs.Prelude.{◌≡◌, ℕ, ◌<◌, ◌≤◌, ◌||◌, false, length, slice_index_or, replicate, IfOk, IsTrue};
ghost use Rattle.key_text.specs.Fault.{Gives};
ghost use Rattle.key_text.specs.Lines.{before, covers, keymaps_line, range_by, range_of, table_of, tables_in};
ghost use Rattle.key_text.specs.StatementViews.{statement_view};
ghost use Rattle.key_text.specs.Tables.{is_table_set};

use crate::fault::KeyError;
use crate::fault_kind::{OUT_OF_RANGE, UNKNOWN_WORD};
use crate::fields::{end_of_line, number_in_range};
use crate::fit_kind::FitKind;
use crate::line_kind::LineKind;
use crate::pieces::{rest_of, start_of};
use crate::placed::{Place, Placed};
use crate::statement::Statement;
use crate::table_set::TableSet;
use crate::words::{bytes, fault, next, place_of_word};
use key_syms::{TABLE_COUNT, number};
use std::alloc::{AllocError, Global};

/// Tables from a first to a last one.
#[derive(Clone, Copy)]
pub struct TableRange {
    pub low: u8,
    pub high: u8,
}

/// `keymaps` and ranges.
#[tactic(auto, unfolding(crate::specs::Lines::keymaps_line))]
pub(crate) fn keymaps_line(
    alloc: Global,
    end: Place,
    items: &[Placed],
) -> Result<Statement, KeyError>
    ensures { Gives statement_view result (keymaps_line end items.now) }
{
    let (word, rest) = next(alloc, UNKNOWN_WORD, end, items)?;
    let text = bytes(alloc, word)?;
    let tables = tables_in(alloc, word, text.as_slice())?;
    end_of_line(alloc, rest)?;
    Ok(Statement::Means(FitKind::of(LineKind::Keymaps(tables))))
}

// The tables of a word of ranges, whose bytes are the text.
fn tables_in(alloc: Global, word: &[Placed], text: &[u8]) -> Result<TableSet, KeyError>
    ensures value { Gives (λ tables. tables) result (tables_in word.now text.now) }
    ensures set { IfOk result (λ tables. IsTrue (is_table_set tables)) }
{
    let mut tables = no_tables(alloc)?;
    let mut rest = text;
    'pieces: loop {
        let n = before(b',', rest);
        let range = range_of(word, start_of(rest, n))?;
        mark(&mut tables, range);
        if n == rest.len() {
            return Ok(TableSet::of(tables));
        }
        rest = rest_of(rest, n + 1);
    }
}

fn no_tables(alloc: Global) -> Result<Vec<bool>, AllocError>
    ensures { IfOk result (λ tables. tables.items ≡ replicate 256 false) }
{
    let mut tables = Vec::new(alloc);
    tables.resize(TABLE_COUNT, false)?;
    Ok(tables)
}

// Adds the tables of a range.
fn mark(tables: &mut Vec<bool>, range: TableRange)
    requires { length tables.old.items ≡ 256 }
    ensures full { length tables.new.items ≡ 256 }
    ensures each { (k : ℕ) → k < 256 → slice_index_or tables.new.items k false
        ≡ (slice_index_or tables.old.items k false || covers k range) }
{
    for t in 0..TABLE_COUNT {
        if usize::from(range.low) <= t && t <= usize::from(range.high) {
            tables[t] = true;
        }
    }
}

// A range `N` or `N-N`.
#[tactic(auto, unfolding(crate::specs::Lines::range_of))]
fn range_of(word: &[Placed], piece: &[u8]) -> Result<TableRange, KeyError>
    ensures value { Gives (λ range. range) result (range_of word.now piece.now) }
    ensures order { IfOk result (λ range. range.low ≤ range.high) }
{
    range_by(word, piece, before(b'-', piece))
}

// A range of a piece with n bytes before its first dash.
fn range_by(word: &[Placed], piece: &[u8], n: usize) -> Result<TableRange, KeyError>
    requires { n ≤ length piece.now }
    ensures value { Gives (λ range. range) result (range_by word.now piece.now n) }
    ensures order { IfOk result (λ range. range.low ≤ range.high) }
{
    let low = table_of(word, start_of(piece, n))?;
    if n == piece.len() {
        return Ok(TableRange { low, high: low });
    }
    let high = table_of(word, rest_of(piece, n + 1))?;
    if low <= high {
        return Ok(TableRange { low, high });
    }
    Err(fault(OUT_OF_RANGE, place_of_word(word)))
}

fn table_of(word: &[Placed], piece: &[u8]) -> Result<u8, KeyError>
    ensures { Gives (λ x. x) result (table_of word.now piece.now) }
{
    number_in_range(0, 255, word, number(piece))
}

// The number of bytes before the first byte of this kind.
fn before(mark: u8, text: &[u8]) -> usize
    ensures value { result ≡ before mark text.now }
    ensures within { result ≤ length text.now }
{
    for i in 0..text.len() {
        if text[i] == mark {
            return i;
        }
    }
    text.len()
}
