//! The lines of a keymap with the texts that it includes.
ghost use Rattle.std.specs.Prelude.{◌≡◌, Result};
ghost use Rattle.std.specs.Option.{option_map};
ghost use Rattle.key_text.specs.Included.{text_named};
ghost use Rattle.key_text.specs.Adds.{Adds};
ghost use Rattle.key_text.specs.Fault.{Fails, Gives};
ghost use Rattle.key_text.specs.Reading.{at_outer_include, blamed_fault, got_from_include, lines_after, lines_of, lines_within, read_row, read_rows, start, within};
ghost use Rattle.key_text.specs.Lines.{StatementView};
ghost use Rattle.key_text.specs.Rows.{rows_of};
ghost use Rattle.key_text.specs.Tally.{none_included};
ghost use Rattle.key_text.specs.declared.fault.KeyFault.{KeyFault};

use crate::fault::{KeyError, KeyFault};
use crate::fault_kind::{NOT_GIVEN, TOO_DEEP, TOO_LONG_INCLUDES, TOO_MANY_INCLUDES};
use crate::first_word::statement_from;
use crate::includes::Includes;
use crate::line::Line;
use crate::next_row::next_row;
use crate::placed::{Place, Placed};
use crate::statement::Statement;
use crate::tally::Tally;
use crate::words::{fault, place_of_word, word_at};
use std::alloc::Global;

// How deep texts may be included.
const MOST_DEEP: u8 = 8;

// The most texts that are included.
const MOST_INCLUDES: u16 = 1000;

// How deep texts may still be included, and the place of the outermost include line.
#[derive(Clone, Copy)]
struct Depth {
    left: u8,
    outer: Option<Place>,
}

// An include line: how deep texts may still be included, the place of the outermost include line, the place
// of a fault of the quoted name, and the fault of the words after the name.
#[derive(Clone, Copy)]
struct IncludeAt {
    left: u8,
    first: Place,
    quoted: Place,
    bad_end: Option<KeyFault>,
}

/// The lines of a keymap, with those of the texts that it includes, or the first fault in reading
/// order.
#[tactic(auto, unfolding(crate::specs::Reading::lines_of))]
pub fn parse(alloc: Global, text: &[u8], inc: &Includes) -> Result<Vec<Line>, KeyError>
    ensures { Gives (λ lines. lines.items) result (lines_of inc.now text.now) }
{
    read_from(alloc, text, inc, None)
}

/// The lines of a keymap, or its first fault, where the included texts have at most `most` bytes
/// together, each as often as it is included.
#[tactic(auto, unfolding(crate::specs::Reading::lines_within))]
pub fn parse_within(
    alloc: Global,
    text: &[u8],
    inc: &Includes,
    most: usize,
) -> Result<Vec<Line>, KeyError>
    ensures { Gives (λ lines. lines.items) result (lines_within most inc.now text.now) }
{
    read_from(alloc, text, inc, Some(most))
}

// The lines of a text, where there is so much room for the included texts.
fn read_from(
    alloc: Global,
    text: &[u8],
    inc: &Includes,
    room: Option<usize>,
) -> Result<Vec<Line>, KeyError>
    ensures { Gives (λ lines. lines.items) result (lines_after (none_included room) inc.now text.now) }
{
    let mut lines = Vec::new(alloc);
    let depth = Depth {
        left: MOST_DEEP,
        outer: None,
    };
    let tally = Tally { texts: 0, room };
    read_text(alloc, inc, depth, tally, text, &mut lines)?;
    Ok(lines)
}

// Reads a text, after the included texts of a tally, and adds its lines. Returns the tally at its end.
#[cycle(reading)]
fn read_text(
    alloc: Global,
    texts: &Includes,
    depth: Depth,
    tally: Tally,
    text: &[u8],
    out: &mut Vec<Line>,
) -> Result<Tally, KeyError>
    ensures { Adds out.old.items out.new.items result
        (read_rows (within depth.left texts.now) texts.now depth.outer tally
        (rows_of start text.now)) }
{
    let mut tally = tally;
    let mut at = 0;
    let mut place = Place { line: 1, column: 1 };
    let mut items = Vec::new(alloc);
    'rows: loop {
        let row = next_row(text, at, place, &mut items)?;
        tally = read_row(alloc, texts, depth, tally, row.end, items.as_slice(), out)?;
        if !row.more {
            return Ok(tally);
        }
        at = row.at;
        place = row.place;
    }
}

// Reads a row.
#[tactic(auto, unfolding(crate::specs::Reading::read_row))]
#[cycle(reading)]
fn read_row(
    alloc: Global,
    texts: &Includes,
    depth: Depth,
    tally: Tally,
    end: Place,
    items: &[Placed],
    out: &mut Vec<Line>,
) -> Result<Tally, KeyError>
    ensures { Adds out.old.items out.new.items result
        (read_row (within depth.left texts.now) texts.now depth.outer tally end items.now) }
{
    let (word, rest) = match word_at(items) {
        Some(found) => found,
        None => return Ok(tally),
    };
    let first = depth.outer.unwrap_or(place_of_word(word));
    let said = match statement_from(alloc, end, word, rest) {
        Ok(said) => said,
        Err(error) => return Err(at_outer_include(depth.outer, error)),
    };
    match said {
        Statement::Nothing => Ok(tally),
        Statement::Means(line) => {
            out.push(Line {
                kind: line.kind,
                line: first.line,
                column: first.column,
            })?;
            Ok(tally)
        }
        Statement::Includes(name, quoted, bad_end) => {
            let at = IncludeAt {
                left: depth.left,
                first,
                quoted: depth.outer.unwrap_or(quoted),
                bad_end: blamed_end(depth.outer, bad_end),
            };
            include(alloc, texts, at, tally, name.as_slice(), out)
        }
    }
}

// Reads the text of an include line.
#[cycle(reading)]
fn include(
    alloc: Global,
    texts: &Includes,
    at: IncludeAt,
    tally: Tally,
    name: &[u8],
    out: &mut Vec<Line>,
) -> Result<Tally, KeyError>
    ensures { Adds out.old.items out.new.items result
        (got_from_include (within at.left texts.now at.quoted at.first at.bad_end tally) at.quoted
        (text_named name.now texts.now)) }
{
    let text = match texts.text_named(name) {
        Some(text) => text,
        None => return Err(fault(NOT_GIVEN, at.quoted)),
    };
    if at.left == 0 {
        return Err(fault(TOO_DEEP, at.first));
    }
    if tally.texts >= MOST_INCLUDES {
        return Err(fault(TOO_MANY_INCLUDES, at.quoted));
    }
    if tally.is_too_long(text.len()) {
        return Err(fault(TOO_LONG_INCLUDES, at.quoted));
    }
    if let Some(bad_end) = at.bad_end {
        return Err(KeyError::Fault(bad_end));
    }
    let depth = Depth {
        left: at.left - 1,
        outer: Some(at.first),
    };
    read_text(alloc, texts, depth, tally.after(text.len()), text, out)
}

// A fault in an included text, at the outermost include line.
fn at_outer_include(outer: Option<Place>, error: KeyError) -> KeyError
    ensures { (read : Result StatementView KeyFault) → Fails error read → Fails result (at_outer_include outer read) }
{
    match error {
        KeyError::Fault(fault) => KeyError::Fault(blamed_fault(outer, fault)),
        KeyError::NoMemory => KeyError::NoMemory,
    }
}

fn blamed_end(outer: Option<Place>, bad_end: Option<KeyFault>) -> Option<KeyFault>
    ensures { result ≡ option_map (blamed_fault outer) bad_end }
{
    match bad_end {
        Some(fault) => Some(blamed_fault(outer, fault)),
        None => None,
    }
}

fn blamed_fault(outer: Option<Place>, fault: KeyFault) -> KeyFault
    ensures { result ≡ blamed_fault outer fault }
{
    let here = Place {
        line: fault.line,
        column: fault.column,
    };
    let at = outer.unwrap_or(here);
    KeyFault {
        kind: fault.kind,
        line: at.line,
        column: at.column,
    }
}
