//! The facts of an entry: a line for each, or an object of JSON with a comma before it.
ghost use Rattle.std.specs.Prelude.{◌≡◌, ◌++◌, IfOk, OnOk, slice_get, slice_index_or};
ghost use Rattle.watch.specs.Facts.{ask_text, cause_text, count_after, ended_text, hop_text, mark_text, switch_text, trace_text, wait_text, wait_text_at, waits_of, waits_text};
ghost use Rattle.vt_procs.specs.declared.waiting.Waiting.TheVariants.{Nothing};

use crate::adding::add_pieces;
use crate::form::Form;
use crate::piece::Piece;
use std::alloc::Global;
use vt_base::{Bytes, CallerNo, NoMemory, Signal};
use vt_explain::{HopCause, HopWhy};
use vt_procs::Waiting;
use vt_world::{Mark, World};

/// The facts of an entry's trace, if the history had so many switches before it.
pub(crate) fn trace_text(
    alloc: Global,
    form: Form,
    caller: CallerNo,
    cert: &[HopWhy],
    switches: u64,
    marks: &[Mark],
) -> Result<Bytes, NoMemory>
    ensures { IfOk result (λ text. text.bytes ≡ trace_text form caller cert.now switches marks.now) }
{
    let mut text = Bytes::new(alloc);
    let mut count = switches;
    for mark in marks {
        add_mark(alloc, &mut text, form, caller, cert, count, mark)?;
        count = count_after(mark, count);
    }
    Ok(text)
}

fn count_after(mark: &Mark, count: u64) -> u64
    ensures { result ≡ count_after mark.now count }
{
    match mark {
        Mark::Hopped(_) => count.saturating_add(1),
        _ => count,
    }
}

// Adds the fact of a mark of the trace, after so many switches of the history.
fn add_mark(
    alloc: Global,
    text: &mut Bytes,
    form: Form,
    caller: CallerNo,
    cert: &[HopWhy],
    count: u64,
    mark: &Mark,
) -> Result<(), NoMemory>
    ensures { OnOk result (text.new.bytes ≡ text.old.bytes ++ mark_text form caller cert.now count mark.now) }
{
    match mark {
        Mark::Asked(console) => add_pieces(
            alloc,
            text,
            form,
            &[
                Piece::ByForm(b"    ", b",{\"what\":\"request\",\"caller\":\""),
                Piece::Caller(caller),
                Piece::ByForm(b" requests console ", b"\",\"console\":"),
                Piece::Console(*console),
                Piece::ByForm(b"\n", b"}"),
            ],
        ),
        Mark::Raised { to, signal } => add_pieces(
            alloc,
            text,
            form,
            &[
                Piece::ByForm(b"    signal ", b",{\"what\":\"signal\",\"signal\":"),
                Piece::Signal(*signal),
                Piece::ByForm(b" to ", b",\"to\":\""),
                Piece::Caller(*to),
                Piece::ByForm(b"\n", b"\"}"),
            ],
        ),
        Mark::Hopped(_) => add_hop(alloc, text, form, cert, count),
        Mark::Ended(p) => add_pieces(
            alloc,
            text,
            form,
            &[
                Piece::ByForm(b"    ", b",{\"what\":\"end\",\"caller\":\""),
                Piece::Caller(*p),
                Piece::ByForm(b" ends\n", b"\"}"),
            ],
        ),
    }
}

// Adds the switch of this number, counted from 0.
fn add_hop(
    alloc: Global,
    text: &mut Bytes,
    form: Form,
    cert: &[HopWhy],
    count: u64,
) -> Result<(), NoMemory>
    ensures { OnOk result (text.new.bytes ≡ text.old.bytes ++ hop_text form (slice_get cert.now count)) }
{
    match cert.get(count as usize) {
        None => Ok(()),
        Some(item) => add_switch(alloc, text, form, item),
    }
}

#[tactic(auto, unfolding(crate::specs::Facts::switch_text))]
fn add_switch(alloc: Global, text: &mut Bytes, form: Form, item: &HopWhy) -> Result<(), NoMemory>
    ensures { OnOk result (text.new.bytes ≡ text.old.bytes ++ switch_text form item.now) }
{
    add_pieces(
        alloc,
        text,
        form,
        &[
            Piece::ByForm(b"    switch from ", b",{\"what\":\"switch\",\"from\":"),
            Piece::Console(item.from),
            Piece::ByForm(b" to ", b",\"to\":"),
            Piece::Console(item.to),
            Piece::ByForm(b": ", b",\"cause\":\""),
        ],
    )?;
    add_cause(alloc, text, form, &item.cause)?;
    Ok(())
}

#[tactic(auto, unfolding(crate::specs::Facts::cause_text))]
fn add_cause(alloc: Global, text: &mut Bytes, form: Form, cause: &HopCause) -> Result<(), NoMemory>
    ensures { OnOk result (text.new.bytes ≡ text.old.bytes ++ cause_text form cause.now) }
{
    match cause {
        HopCause::Free => add_pieces(alloc, text, form, &[Piece::ByForm(b"free\n", b"free\"}")]),
        HopCause::Released {
            owner,
            asked,
            signal,
        } => add_ask(
            alloc,
            text,
            form,
            b"released by ",
            b"released\",\"owner\":\"",
            *owner,
            *asked,
            *signal,
        ),
        HopCause::Died {
            owner,
            asked,
            signal,
        } => add_ask(
            alloc,
            text,
            form,
            b"died with ",
            b"died\",\"owner\":\"",
            *owner,
            *asked,
            *signal,
        ),
    }
}

#[tactic(auto, unfolding(crate::specs::Facts::ask_text))]
fn add_ask(
    alloc: Global,
    text: &mut Bytes,
    form: Form,
    in_lines: &[u8],
    in_json: &[u8],
    owner: CallerNo,
    asked: u32,
    signal: Signal,
) -> Result<(), NoMemory>
    ensures { OnOk result (text.new.bytes
        ≡ text.old.bytes ++ ask_text form in_lines.now in_json.now owner asked signal) }
{
    add_pieces(
        alloc,
        text,
        form,
        &[
            Piece::ByForm(in_lines, in_json),
            Piece::Caller(owner),
            Piece::ByForm(b", asked in entry ", b"\",\"asked\":"),
            Piece::Number(asked),
            Piece::ByForm(b" by signal ", b",\"signal\":"),
            Piece::Signal(signal),
            Piece::ByForm(b"\n", b"}"),
        ],
    )
}

/// The state of each caller's wait.
pub(crate) fn waits_of(alloc: Global, world: &World) -> Result<Vec<Waiting>, NoMemory>
    ensures { IfOk result (λ waits. waits.items ≡ waits_of world.now) }
{
    let callers = CallerNo::all();
    let all = callers.as_slice();
    let mut waits = Vec::new(alloc);
    for p in all {
        waits.extend_from_slice(&[world.wait_of(*p)])?;
    }
    Ok(waits)
}

/// Adds the waits that ended, by rising callers.
#[tactic(auto, unfolding(crate::specs::Facts::waits_text))]
pub(crate) fn add_waits(
    alloc: Global,
    text: &mut Bytes,
    form: Form,
    before: &[Waiting],
    after: &World,
) -> Result<(), NoMemory>
    ensures { OnOk result (text.new.bytes ≡ text.old.bytes ++ waits_text form before.now after.now) }
{
    let callers = CallerNo::all();
    let all = callers.as_slice();
    for p in all {
        add_wait_at(alloc, text, form, before, after, *p)?;
    }
    Ok(())
}

fn add_wait_at(
    alloc: Global,
    text: &mut Bytes,
    form: Form,
    before: &[Waiting],
    after: &World,
    p: CallerNo,
) -> Result<(), NoMemory>
    ensures { OnOk result (text.new.bytes ≡ text.old.bytes ++ wait_text_at form before.now after.now p) }
{
    add_wait(
        alloc,
        text,
        form,
        p,
        &waiting_at(before, p),
        &after.wait_of(p),
    )?;
    Ok(())
}

fn waiting_at(waits: &[Waiting], p: CallerNo) -> Waiting
    ensures { result ≡ slice_index_or waits.now p Nothing }
{
    let at = usize::from(p.get());
    if at < waits.len() {
        waits[at]
    } else {
        Waiting::Nothing
    }
}

// Adds the wait, if it ended between these states.
fn add_wait(
    alloc: Global,
    text: &mut Bytes,
    form: Form,
    p: CallerNo,
    before: &Waiting,
    after: &Waiting,
) -> Result<(), NoMemory>
    ensures { OnOk result (text.new.bytes ≡ text.old.bytes ++ wait_text form p before.now after.now) }
{
    match (before, after) {
        (Waiting::Nothing, Waiting::Done) => add_ended(alloc, text, form, p, b"ok"),
        (Waiting::Nothing, Waiting::Broken) => add_ended(alloc, text, form, p, b"EINTR"),
        (Waiting::Open(_), Waiting::Done) => add_ended(alloc, text, form, p, b"ok"),
        (Waiting::Open(_), Waiting::Broken) => add_ended(alloc, text, form, p, b"EINTR"),
        (Waiting::Open(_), Waiting::Nothing) => add_ended(alloc, text, form, p, b"gone"),
        _ => Ok(()),
    }
}

#[tactic(auto, unfolding(crate::specs::Facts::ended_text))]
fn add_ended(
    alloc: Global,
    text: &mut Bytes,
    form: Form,
    p: CallerNo,
    how: &[u8],
) -> Result<(), NoMemory>
    ensures { OnOk result (text.new.bytes ≡ text.old.bytes ++ ended_text form p how.now) }
{
    add_pieces(
        alloc,
        text,
        form,
        &[
            Piece::ByForm(b"    wait of ", b",{\"what\":\"wait\",\"caller\":\""),
            Piece::Caller(p),
            Piece::ByForm(b": ", b"\",\"how\":\""),
            Piece::Text(how),
            Piece::ByForm(b"\n", b"\"}"),
        ],
    )
}
