ghost use Rattle.std.specs.Prelude.{◌≡◌, ◌+◌, [], ◌∷◌, length};
ghost use Rattle.key_text.specs.Fault.{Gives};
ghost use Rattle.key_text.specs.Lines.{keycode_by, keys_line, modified_line, modifiers_at, weight_of};
ghost use Rattle.key_text.specs.Fields.{symbols_at, with_actions};
ghost use Rattle.key_text.specs.StatementViews.{statement_view};

use crate::fault::KeyError;
use crate::fault_kind::{UNKNOWN_WORD, WRONG_COUNT};
use crate::fields::{action_of, code_at, end_of_line, keyword_at};
use crate::fit_kind::FitKind;
use crate::line_kind::LineKind;
use crate::placed::{Place, Placed};
use crate::statement::Statement;
use crate::syms::Syms;
use crate::words::{check_utf8, fault, is_word, next, place_of_word, word_at};
use key_syms::Action;
use std::alloc::Global;

/// `keycode N =` and symbols.
#[tactic(auto, unfolding(crate::specs::Lines::keys_line, crate::specs::Fields::symbol_at))]
pub(crate) fn keys_line(alloc: Global, end: Place, items: &[Placed]) -> Result<Statement, KeyError>
    ensures { Gives statement_view result (keys_line end items.now) }
{
    let (code, rest) = code_at(alloc, end, items)?;
    let rest = keyword_at(alloc, b"=", end, rest)?;
    let (word, rest) = next(alloc, WRONG_COUNT, end, rest)?;
    let first = action_of(alloc, word)?;
    let syms = symbols(alloc, first, rest)?;
    Ok(Statement::Means(FitKind::of(LineKind::Keys { code, syms })))
}

// The symbols up to the row's end, after a first one.
fn symbols(alloc: Global, first: Action, items: &[Placed]) -> Result<Syms, KeyError>
    ensures { Gives (λ syms. syms) result
        (with_actions (first ∷ []) (symbols_at (length items.now) items.now)) }
{
    let mut actions = Vec::new(alloc);
    actions.push(first)?;
    let mut rest = items;
    for _turn in 0..items.len() {
        let (word, left) = match word_at(rest) {
            Some(found) => found,
            None => return Ok(Syms::of(actions)),
        };
        let (word, left) = check_utf8(alloc, word, left)?;
        let action = action_of(alloc, word)?;
        actions.push(action)?;
        rest = left;
    }
    Ok(Syms::of(actions))
}

/// Modifier words, of which the first weighs this, before `keycode N =` and one symbol.
#[tactic(auto, unfolding(crate::specs::Lines::modified_line, crate::specs::Fields::symbol_at))]
pub(crate) fn modified_line(
    alloc: Global,
    weight: u8,
    end: Place,
    items: &[Placed],
) -> Result<Statement, KeyError>
    ensures { Gives statement_view result (modified_line weight end items.now) }
{
    let (table, rest) = modifiers_at(alloc, weight, end, items)?;
    let (code, rest) = code_at(alloc, end, rest)?;
    let rest = keyword_at(alloc, b"=", end, rest)?;
    let (word, rest) = next(alloc, WRONG_COUNT, end, rest)?;
    let action = action_of(alloc, word)?;
    end_of_line(alloc, rest)?;
    Ok(Statement::Means(FitKind::of(LineKind::One {
        table,
        code,
        action,
    })))
}

// Modifier words up to `keycode`: the union of their weights, and the rest of the row.
fn modifiers_at(
    alloc: Global,
    weight: u8,
    end: Place,
    items: &[Placed],
) -> Result<(u8, &[Placed]), KeyError>
    ensures { Gives (λ x. (x.0, x.1.now)) result
        (modifiers_at (length items.now + 1) weight end items.now) }
{
    let mut table = weight;
    let mut rest = items;
    for _turn in 0..items.len() + 1 {
        let (word, left) = next(alloc, UNKNOWN_WORD, end, rest)?;
        match weight_of(word) {
            Some(weight) => {
                table |= weight;
                rest = left;
                continue;
            }
            None => return keycode_by(table, word, left),
        }
    }
    Err(fault(UNKNOWN_WORD, end))
}

fn keycode_by<'a>(
    table: u8,
    word: &'a [Placed],
    rest: &'a [Placed],
) -> Result<(u8, &'a [Placed]), KeyError>
    ensures { Gives (λ x. (x.0, x.1.now)) result
        (keycode_by table (word.entry.now, rest.entry.now)) }
{
    if is_word(b"keycode", word) {
        return Ok((table, rest));
    }
    Err(fault(UNKNOWN_WORD, place_of_word(word)))
}

/// The weight of a modifier word: 2 to its number, as key_syms has it, and 0 for `plain`.
#[tactic(auto, unfolding(crate::specs::Lines::weight_of))]
pub(crate) fn weight_of(word: &[Placed]) -> Option<u8>
    ensures { result ≡ weight_of word.now }
{
    if is_word(b"plain", word) {
        return Some(0);
    }
    if is_word(b"shift", word) {
        return Some(1);
    }
    if is_word(b"altgr", word) {
        return Some(2);
    }
    if is_word(b"control", word) {
        return Some(4);
    }
    if is_word(b"alt", word) {
        return Some(8);
    }
    if is_word(b"shiftl", word) {
        return Some(16);
    }
    if is_word(b"shiftr", word) {
        return Some(32);
    }
    if is_word(b"ctrll", word) {
        return Some(64);
    }
    if is_word(b"ctrlr", word) {
        return Some(128);
    }
    None
}
