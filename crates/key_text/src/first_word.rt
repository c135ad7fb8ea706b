ghost use Rattle.key_text.specs.Fault.{Gives};
ghost use Rattle.key_text.specs.Lines.{line_by, modified_by, statement_from, weight_of};
ghost use Rattle.key_text.specs.StatementViews.{statement_view};

use crate::fault::KeyError;
use crate::fault_kind::UNKNOWN_WORD;
use crate::key_lines::{keys_line, modified_line, weight_of};
use crate::keymaps_line::keymaps_line;
use crate::placed::{Place, Placed};
use crate::statement::Statement;
use crate::word_lines::{
    alt_is_meta_line, charset_line, compose_line, include_line, string_line, usual_strings_line,
};
use crate::words::{check_utf8, fault, is_word, place_of_word};
use std::alloc::Global;

/// The statement of a row with this first word.
#[tactic(auto, unfolding(crate::specs::Lines::statement_from))]
pub(crate) fn statement_from(
    alloc: Global,
    end: Place,
    word: &[Placed],
    rest: &[Placed],
) -> Result<Statement, KeyError>
    ensures { Gives statement_view result (statement_from end (word.now, rest.now)) }
{
    let (word, rest) = check_utf8(alloc, word, rest)?;
    statement_by_keyword(alloc, end, word, rest)
}

// A line by its first word.
#[tactic(auto, unfolding(crate::specs::Lines::line_by))]
fn statement_by_keyword(
    alloc: Global,
    end: Place,
    word: &[Placed],
    rest: &[Placed],
) -> Result<Statement, KeyError>
    ensures { Gives statement_view result (line_by end (word.now, rest.now)) }
{
    if is_word(b"keymaps", word) {
        return keymaps_line(alloc, end, rest);
    }
    if is_word(b"keycode", word) {
        return keys_line(alloc, end, rest);
    }
    if is_word(b"string", word) {
        return string_line(alloc, end, rest);
    }
    if is_word(b"compose", word) {
        return compose_line(alloc, end, rest);
    }
    if is_word(b"include", word) {
        return include_line(alloc, end, rest);
    }
    if is_word(b"charset", word) {
        return charset_line(alloc, end, rest);
    }
    if is_word(b"alt_is_meta", word) {
        return alt_is_meta_line(alloc, rest);
    }
    if is_word(b"strings", word) {
        return usual_strings_line(alloc, end, rest);
    }
    modified_by(alloc, end, word, rest)
}

fn modified_by(
    alloc: Global,
    end: Place,
    word: &[Placed],
    rest: &[Placed],
) -> Result<Statement, KeyError>
    ensures { Gives statement_view result
        (modified_by end (word.now, rest.now) (weight_of word.now)) }
{
    match weight_of(word) {
        Some(weight) => modified_line(alloc, weight, end, rest),
        None => Err(fault(UNKNOWN_WORD, place_of_word(word))),
    }
}
