//! The text of an entry, and the object of the end.
ghost use Rattle.std.specs.Prelude.{◌≡◌, [], ◌∷◌, ◌++◌, drop, IfOk, OnOk};
ghost use Rattle.std.specs.List.{flat_map};
ghost use Rattle.watch.specs.Entries.{change_text, end_object, entry_lines, entry_object, error_text, escaped_byte, lower_lines, object_row};
ghost use Rattle.watch.specs.Words.{error_name, joined};
ghost use Rattle.vt_journal.specs.Journal.{entry_words, line_text};
ghost use Rattle.vt_journal.specs.Text.{blank_before_each};
ghost use Rattle.vt_journal.specs.Words.{event_words, reply_words};

use crate::adding::{VERSION, add_pieces, text_of};
use crate::form::Form;
use crate::piece::Piece;
use std::alloc::Global;
use vt_base::{Bytes, Errno, NoMemory};
use vt_events::{Entry, Event, Reply};
use vt_journal::{add_caller, add_event, add_next, add_reply};

/// Adds the lines of an entry with these facts, and with this state before it and after it.
#[tactic(auto, unfolding(crate::specs::Entries::entry_lines))]
pub(crate) fn add_lines(
    alloc: Global,
    text: &mut Bytes,
    entry: &Entry,
    facts: &[u8],
    before: &[u8],
    after: &[u8],
) -> Result<(), NoMemory>
    ensures { OnOk result
        (text.new.bytes ≡ text.old.bytes ++ entry_lines entry.now facts.now before.now after.now) }
{
    add_entry_line(alloc, text, entry)?;
    add_lower_lines(alloc, text, &entry.reply, facts, before, after)?;
    Ok(())
}

// Adds the entry's line of the journal.
fn add_entry_line(alloc: Global, text: &mut Bytes, entry: &Entry) -> Result<(), NoMemory>
    ensures { OnOk result (text.new.bytes ≡ text.old.bytes ++ line_text (entry_words 2 entry.now)) }
{
    add_caller(alloc, text, entry.caller, VERSION)?;
    add_next(alloc, text, u64::from(entry.seq))?;
    add_event(alloc, text, &entry.event)?;
    text.add(alloc, b" =")?;
    add_reply(alloc, text, &entry.reply)?;
    text.add(alloc, b"\n")?;
    Ok(())
}

#[tactic(auto, unfolding(crate::specs::Entries::lower_lines))]
fn add_lower_lines(
    alloc: Global,
    text: &mut Bytes,
    answer: &Reply,
    facts: &[u8],
    before: &[u8],
    after: &[u8],
) -> Result<(), NoMemory>
    ensures { OnOk result
        (text.new.bytes ≡ text.old.bytes ++ lower_lines answer.now facts.now before.now after.now) }
{
    let error = error_text(alloc, Form::Lines, answer)?;
    let change = change_text(alloc, before, after)?;
    add_texts(alloc, text, error.as_slice(), facts, change.as_slice())
}

fn add_texts<'a>(
    alloc: Global,
    text: &mut Bytes,
    first: &'a [u8],
    second: &'a [u8],
    third: &'a [u8],
) -> Result<(), NoMemory>
    ensures { OnOk result
        (text.new.bytes ≡ text.old.bytes ++ joined (first.now ∷ second.now ∷ third.now ∷ [])) }
{
    add_pieces(
        alloc,
        text,
        Form::Lines,
        &[Piece::Text(first), Piece::Text(second), Piece::Text(third)],
    )
}

/// Adds the object of the entry at this place with these facts, and with this state after it.
#[tactic(auto, unfolding(crate::specs::Entries::entry_object))]
pub(crate) fn add_object(
    alloc: Global,
    text: &mut Bytes,
    place: u32,
    entry: &Entry,
    facts: &[u8],
    state: &[u8],
) -> Result<(), NoMemory>
    ensures { OnOk result
        (text.new.bytes ≡ text.old.bytes ++ entry_object place entry.now facts.now state.now) }
{
    let call = call_text(alloc, &entry.event)?;
    let answer = answer_text(alloc, &entry.reply)?;
    let error = error_text(alloc, Form::Json, &entry.reply)?;
    add_object_row(
        alloc,
        text,
        place,
        entry,
        call.as_slice(),
        answer.as_slice(),
        error.as_slice(),
        facts,
        state,
    )
}

#[tactic(auto, unfolding(crate::specs::Entries::object_row))]
fn add_object_row<'a>(
    alloc: Global,
    text: &mut Bytes,
    place: u32,
    entry: &Entry,
    call: &'a [u8],
    answer: &'a [u8],
    error: &'a [u8],
    facts: &'a [u8],
    state: &'a [u8],
) -> Result<(), NoMemory>
    ensures { OnOk result (text.new.bytes ≡ text.old.bytes
        ++ object_row place entry.now call.now answer.now error.now facts.now state.now) }
{
    add_pieces(
        alloc,
        text,
        Form::Json,
        &[
            Piece::Text(b"{\"entry\":"),
            Piece::Number(place),
            Piece::Text(b",\"caller\":\""),
            Piece::Caller(entry.caller),
            Piece::Text(b"\",\"count\":"),
            Piece::Number(entry.seq),
            Piece::Text(b",\"call\":\""),
            Piece::List(call),
            Piece::Text(b"\",\"answer\":\""),
            Piece::List(answer),
            Piece::Text(b"\",\"error\":"),
            Piece::Text(error),
            Piece::Text(b",\"did\":["),
            Piece::List(facts),
            Piece::Text(b"]"),
            Piece::Text(state),
            Piece::Text(b"}\n"),
        ],
    )
}

// The words of the call, with a blank before each.
fn call_text(alloc: Global, event: &Event) -> Result<Bytes, NoMemory>
    ensures { IfOk result (λ text. text.bytes ≡ blank_before_each (event_words event.now)) }
{
    let mut text = Bytes::new(alloc);
    add_event(alloc, &mut text, event)?;
    Ok(text)
}

// The words of the answer, with a blank before each.
fn answer_text(alloc: Global, reply: &Reply) -> Result<Bytes, NoMemory>
    ensures { IfOk result (λ text. text.bytes ≡ blank_before_each (reply_words reply.now)) }
{
    let mut text = Bytes::new(alloc);
    add_reply(alloc, &mut text, reply)?;
    Ok(text)
}

fn error_text(alloc: Global, form: Form, reply: &Reply) -> Result<Bytes, NoMemory>
    ensures { IfOk result (λ text. text.bytes ≡ error_text form reply.now) }
{
    match reply {
        Reply::Err(errno) => text_of(
            alloc,
            form,
            &[
                Piece::ByForm(b"    answer ", b"\""),
                Piece::Text(error_name(*errno)),
                Piece::ByForm(b"\n", b"\""),
            ],
        ),
        _ => text_of(alloc, form, &[Piece::ByForm(b"", b"null")]),
    }
}

// The error's name (errno(3)).
fn error_name(errno: Errno) -> &'static [u8]
    ensures { result.now ≡ error_name errno }
{
    match errno {
        Errno::Srch => b"ESRCH",
        Errno::Intr => b"EINTR",
        Errno::Nxio => b"ENXIO",
        Errno::Badf => b"EBADF",
        Errno::Again => b"EAGAIN",
        Errno::Busy => b"EBUSY",
        Errno::Inval => b"EINVAL",
        Errno::Notty => b"ENOTTY",
        Errno::Perm => b"EPERM",
    }
}

fn change_text(alloc: Global, before: &[u8], after: &[u8]) -> Result<Bytes, NoMemory>
    ensures { IfOk result (λ text. text.bytes ≡ change_text before.now after.now) }
{
    if before == after {
        return Ok(Bytes::new(alloc));
    }
    text_of(
        alloc,
        Form::Lines,
        &[Piece::Text(b"    "), Piece::Text(after), Piece::Text(b"\n")],
    )
}

/// Adds the object of the end: how many entries there are, and this final text.
pub(crate) fn add_end(
    alloc: Global,
    text: &mut Bytes,
    entries: u32,
    last: &[u8],
) -> Result<(), NoMemory>
    ensures { OnOk result (text.new.bytes ≡ text.old.bytes ++ end_object entries last.now) }
{
    let escaped = escaped_text(alloc, last)?;
    add_pieces(
        alloc,
        text,
        Form::Json,
        &[
            Piece::Text(b"{\"entries\":"),
            Piece::Number(entries),
            Piece::Text(b",\"final\":\""),
            Piece::Text(escaped.as_slice()),
            Piece::Text(b"\"}\n"),
        ],
    )
}

fn escaped_text(alloc: Global, bytes: &[u8]) -> Result<Bytes, NoMemory>
    ensures { IfOk result (λ text. text.bytes ≡ flat_map escaped_byte bytes.now) }
{
    let mut text = Bytes::new(alloc);
    for b in bytes {
        add_escaped(alloc, &mut text, *b)?;
    }
    Ok(text)
}

fn add_escaped(alloc: Global, text: &mut Bytes, b: u8) -> Result<(), NoMemory>
    ensures { OnOk result (text.new.bytes ≡ text.old.bytes ++ escaped_byte b) }
{
    if b == b'"' {
        return text.add(alloc, b"\\\"");
    }
    if b == b'\\' {
        return text.add(alloc, b"\\\\");
    }
    if b == b'\n' {
        return text.add(alloc, b"\\n");
    }
    if b < 0x20 {
        text.add(alloc, b"\\u00")?;
        return text.add_hex(alloc, &[b]);
    }
    text.add(alloc, &[b])
}
