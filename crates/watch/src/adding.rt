//! Texts, made of pieces.
ghost use Rattle.std.specs.Prelude.{◌≡◌, ◌++◌, drop, IfOk, OnOk};
ghost use Rattle.std.specs.List.{flat_map};
ghost use Rattle.watch.specs.Words.{by_form, list_text, piece_text};

use crate::form::Form;
use crate::piece::Piece;
use std::alloc::Global;
use vt_base::{Bytes, NoMemory};

/// The version of the journal's words.
pub(crate) const VERSION: u8 = 2;

/// The text of the pieces.
pub(crate) fn text_of(alloc: Global, form: Form, pieces: &[Piece]) -> Result<Bytes, NoMemory>
    ensures { IfOk result (λ text. text.bytes ≡ flat_map (piece_text form) pieces.now) }
{
    let mut text = Bytes::new(alloc);
    add_pieces(alloc, &mut text, form, pieces)?;
    Ok(text)
}

/// Adds the pieces.
pub(crate) fn add_pieces(
    alloc: Global,
    text: &mut Bytes,
    form: Form,
    pieces: &[Piece],
) -> Result<(), NoMemory>
    ensures { OnOk result (text.new.bytes ≡ text.old.bytes ++ flat_map (piece_text form) pieces.now) }
{
    for piece in pieces {
        add_piece(alloc, text, form, piece)?;
    }
    Ok(())
}

fn add_piece(alloc: Global, text: &mut Bytes, form: Form, piece: &Piece) -> Result<(), NoMemory>
    ensures { OnOk result (text.new.bytes ≡ text.old.bytes ++ piece_text form piece.now) }
{
    match piece {
        Piece::Text(bytes) => text.add(alloc, bytes),
        Piece::ByForm(in_lines, in_json) => add_by_form(alloc, text, form, in_lines, in_json),
        Piece::List(elements) => add_list(alloc, text, form, elements),
        Piece::Caller(caller) => vt_journal::add_caller(alloc, text, *caller, VERSION),
        Piece::Console(console) => text.add_decimal(alloc, u64::from(console.get())),
        Piece::Signal(signal) => text.add_decimal(alloc, u64::from(signal.get())),
        Piece::Number(n) => text.add_decimal(alloc, u64::from(*n)),
    }
}

// Adds the list whose elements these are, each with a separator of one byte before it.
fn add_list(alloc: Global, text: &mut Bytes, form: Form, elements: &[u8]) -> Result<(), NoMemory>
    ensures { OnOk result (text.new.bytes ≡ text.old.bytes ++ list_text form elements.now) }
{
    match elements.split_first() {
        Some((_, list)) => text.add(alloc, list),
        None => add_by_form(alloc, text, form, b" none", b""),
    }
}

fn add_by_form(
    alloc: Global,
    text: &mut Bytes,
    form: Form,
    in_lines: &[u8],
    in_json: &[u8],
) -> Result<(), NoMemory>
    ensures { OnOk result (text.new.bytes ≡ text.old.bytes ++ by_form form in_lines.now in_json.now) }
{
    match form {
        Form::Lines => text.add(alloc, in_lines),
        Form::Json => text.add(alloc, in_json),
    }
}
