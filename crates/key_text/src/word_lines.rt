ghost use Rattle.std.specs.Prelude.{◌≡◌, IfOk};
ghost use Rattle.std.specs.Result.{result_err};
ghost use Rattle.key_text.specs.Fault.{Gives};
ghost use Rattle.key_text.specs.Fields.{end_of_line};
ghost use Rattle.key_text.specs.Lines.{after_charset, alt_is_meta_line, charset_line, compose_line, include_line, is_next, pair_line, string_line, usual_pairs_line, usual_strings_line};
ghost use Rattle.key_text.specs.StatementViews.{statement_view};

use crate::fault::{KeyError, KeyFault};
use crate::fields::{character_at, end_of_line, function_at, keyword_at, string_at, text_at};
use crate::fit_kind::FitKind;
use crate::line_kind::LineKind;
use crate::placed::{Place, Placed};
use crate::statement::Statement;
use crate::words::{is_word, word_at};
use key_syms::Pair;
use std::alloc::Global;
use vt_base::{Bytes, NoMemory};

/// `string NAME = "text"`.
#[tactic(auto, unfolding(crate::specs::Lines::string_line))]
pub(crate) fn string_line(
    alloc: Global,
    end: Place,
    items: &[Placed],
) -> Result<Statement, KeyError>
    ensures { Gives statement_view result (string_line end items.now) }
{
    let (func, rest) = function_at(alloc, end, items)?;
    let rest = keyword_at(alloc, b"=", end, rest)?;
    let (text, rest) = string_at(alloc, end, rest)?;
    end_of_line(alloc, rest)?;
    let text = Bytes::from_slice(alloc, text.as_slice())?;
    Ok(Statement::Means(FitKind::of(LineKind::Text { func, text })))
}

/// `compose A B to C`, or `compose as usual`.
#[tactic(auto, unfolding(crate::specs::Lines::compose_line))]
pub(crate) fn compose_line(
    alloc: Global,
    end: Place,
    items: &[Placed],
) -> Result<Statement, KeyError>
    ensures { Gives statement_view result (compose_line end items.now) }
{
    if is_next(b"as", items) {
        return usual_pairs_line(alloc, end, items);
    }
    pair_line(alloc, end, items)
}

#[tactic(auto, unfolding(crate::specs::Lines::pair_line))]
fn pair_line(alloc: Global, end: Place, items: &[Placed]) -> Result<Statement, KeyError>
    ensures { Gives statement_view result (pair_line end items.now) }
{
    let (accent, rest) = character_at(alloc, end, items)?;
    let (base, rest) = character_at(alloc, end, rest)?;
    let rest = keyword_at(alloc, b"to", end, rest)?;
    let (result, rest) = character_at(alloc, end, rest)?;
    end_of_line(alloc, rest)?;
    Ok(Statement::Means(FitKind::of(LineKind::Compose(Pair {
        accent,
        base,
        result,
    }))))
}

#[tactic(auto, unfolding(crate::specs::Lines::usual_pairs_line))]
fn usual_pairs_line(alloc: Global, end: Place, items: &[Placed]) -> Result<Statement, KeyError>
    ensures { Gives statement_view result (usual_pairs_line end items.now) }
{
    let rest = keyword_at(alloc, b"as", end, items)?;
    let rest = keyword_at(alloc, b"usual", end, rest)?;
    let rest = after_charset(alloc, end, rest)?;
    end_of_line(alloc, rest)?;
    Ok(Statement::Means(FitKind::of(LineKind::UsualPairs)))
}

// The rest of the row after `for "name"`, if the row begins with it.
#[tactic(auto, unfolding(crate::specs::Lines::after_charset))]
fn after_charset(alloc: Global, end: Place, items: &[Placed]) -> Result<&[Placed], KeyError>
    ensures { Gives (λ rest. rest.now) result (after_charset end items.now) }
{
    if is_next(b"for", items) {
        let rest = keyword_at(alloc, b"for", end, items)?;
        let (_name, _at, rest) = text_at(alloc, end, rest)?;
        return Ok(rest);
    }
    Ok(items)
}

// Whether the next word is this one.
#[tactic(auto, unfolding(crate::specs::Lines::is_next))]
fn is_next(text: &[u8], items: &[Placed]) -> bool
    ensures { result ≡ is_next text.now items.now }
{
    match word_at(items) {
        Some((word, _rest)) => is_word(text, word),
        None => false,
    }
}

/// `strings as usual`.
#[tactic(auto, unfolding(crate::specs::Lines::usual_strings_line))]
pub(crate) fn usual_strings_line(
    alloc: Global,
    end: Place,
    items: &[Placed],
) -> Result<Statement, KeyError>
    ensures { Gives statement_view result (usual_strings_line end items.now) }
{
    let rest = keyword_at(alloc, b"as", end, items)?;
    let rest = keyword_at(alloc, b"usual", end, rest)?;
    end_of_line(alloc, rest)?;
    Ok(Statement::Means(FitKind::of(LineKind::UsualStrings)))
}

/// `alt_is_meta`.
#[tactic(auto, unfolding(crate::specs::Lines::alt_is_meta_line))]
pub(crate) fn alt_is_meta_line(alloc: Global, items: &[Placed]) -> Result<Statement, KeyError>
    ensures { Gives statement_view result (alt_is_meta_line items.now) }
{
    end_of_line(alloc, items)?;
    Ok(Statement::Means(FitKind::of(LineKind::AltIsMeta)))
}

/// `include "name"`.
#[tactic(auto, unfolding(crate::specs::Lines::include_line))]
pub(crate) fn include_line(
    alloc: Global,
    end: Place,
    items: &[Placed],
) -> Result<Statement, KeyError>
    ensures { Gives statement_view result (include_line end items.now) }
{
    let (name, at, rest) = text_at(alloc, end, items)?;
    let bad_end = end_fault(alloc, rest)?;
    Ok(Statement::Includes(name, at, bad_end))
}

// The fault of a row that doesn't end.
fn end_fault(alloc: Global, items: &[Placed]) -> Result<Option<KeyFault>, NoMemory>
    ensures { IfOk result (λ fault. fault ≡ result_err (end_of_line items.now)) }
{
    match end_of_line(alloc, items) {
        Ok(()) => Ok(None),
        Err(KeyError::Fault(fault)) => Ok(Some(fault)),
        Err(KeyError::NoMemory) => Err(NoMemory),
    }
}

/// `charset "name"`, which has no effect.
#[tactic(auto, unfolding(crate::specs::Lines::charset_line))]
pub(crate) fn charset_line(
    alloc: Global,
    end: Place,
    items: &[Placed],
) -> Result<Statement, KeyError>
    ensures { Gives statement_view result (charset_line end items.now) }
{
    let (_name, _at, rest) = text_at(alloc, end, items)?;
    end_of_line(alloc, rest)?;
    Ok(Statement::Nothing)
}
