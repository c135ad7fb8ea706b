//! The state after an entry, in words or as members of an object of JSON.
ghost use Rattle.std.specs.Prelude.{◌≡◌, ◌++◌, drop, IfOk, OnOk};
ghost use Rattle.watch.specs.States.{owner_text, owners_text, pending_text, place_text, state_row, state_text, waiter_text, waiters_text};

use crate::adding::{add_pieces, text_of};
use crate::form::Form;
use crate::piece::Piece;
use std::alloc::Global;
use vt_base::{Bytes, CallerNo, ConsoleNo, NoMemory};
use vt_procs::{Ticket, Waiting};
use vt_world::World;

/// The text of a state, in which the console that is pending has been pending since this entry.
#[tactic(auto, unfolding(crate::specs::States::state_text))]
pub(crate) fn state_text(
    alloc: Global,
    form: Form,
    world: &World,
    since: u32,
) -> Result<Bytes, NoMemory>
    ensures { IfOk result (λ text. text.bytes ≡ state_text form world.now since) }
{
    let owners = owners_text(alloc, form, world)?;
    let pending = pending_text(alloc, form, world.pending_console(), since)?;
    let waiters = waiters_text(alloc, form, world)?;
    state_row(
        alloc,
        form,
        world.display(),
        owners.as_slice(),
        pending.as_slice(),
        waiters.as_slice(),
    )
}

#[tactic(auto, unfolding(crate::specs::States::state_row))]
fn state_row<'a>(
    alloc: Global,
    form: Form,
    front: ConsoleNo,
    owners: &'a [u8],
    pending: &'a [u8],
    waiters: &'a [u8],
) -> Result<Bytes, NoMemory>
    ensures { IfOk result
        (λ text. text.bytes ≡ state_row form front owners.now pending.now waiters.now) }
{
    text_of(
        alloc,
        form,
        &[
            Piece::ByForm(b"now: front ", b",\"front\":"),
            Piece::Console(front),
            Piece::ByForm(b"; owners", b",\"owners\":["),
            Piece::List(owners),
            Piece::ByForm(b"; pending ", b"],\"pending\":"),
            Piece::Text(pending),
            Piece::ByForm(b"; waits", b",\"waits\":["),
            Piece::List(waiters),
            Piece::ByForm(b"", b"]"),
        ],
    )
}

// Each console that has an owner, rising.
#[tactic(auto, unfolding(crate::specs::States::owners_text))]
fn owners_text(alloc: Global, form: Form, world: &World) -> Result<Bytes, NoMemory>
    ensures { IfOk result (λ text. text.bytes ≡ owners_text form world.now) }
{
    let consoles = ConsoleNo::all();
    let all = consoles.as_slice();
    let mut text = Bytes::new(alloc);
    for console in all {
        add_owner(alloc, &mut text, form, *console, world.owner(*console))?;
    }
    Ok(text)
}

fn add_owner(
    alloc: Global,
    text: &mut Bytes,
    form: Form,
    console: ConsoleNo,
    owner: Option<CallerNo>,
) -> Result<(), NoMemory>
    ensures { OnOk result (text.new.bytes ≡ text.old.bytes ++ owner_text form console owner) }
{
    match owner {
        None => Ok(()),
        Some(p) => add_pieces(
            alloc,
            text,
            form,
            &[
                Piece::ByForm(b", ", b",{\"console\":"),
                Piece::Console(console),
                Piece::ByForm(b" ", b",\"owner\":\""),
                Piece::Caller(p),
                Piece::ByForm(b"", b"\"}"),
            ],
        ),
    }
}

fn pending_text(
    alloc: Global,
    form: Form,
    pending: Option<ConsoleNo>,
    since: u32,
) -> Result<Bytes, NoMemory>
    ensures { IfOk result (λ text. text.bytes ≡ pending_text form pending since) }
{
    match pending {
        None => text_of(alloc, form, &[Piece::ByForm(b"none", b"null")]),
        Some(n) => text_of(
            alloc,
            form,
            &[
                Piece::ByForm(b"", b"{\"console\":"),
                Piece::Console(n),
                Piece::ByForm(b" since ", b",\"since\":"),
                Piece::Number(since),
                Piece::ByForm(b"", b"}"),
            ],
        ),
    }
}

// Each caller that has an open wait, rising.
#[tactic(auto, unfolding(crate::specs::States::waiters_text))]
fn waiters_text(alloc: Global, form: Form, world: &World) -> Result<Bytes, NoMemory>
    ensures { IfOk result (λ text. text.bytes ≡ waiters_text form world.now) }
{
    let callers = CallerNo::all();
    let all = callers.as_slice();
    let mut text = Bytes::new(alloc);
    for p in all {
        add_waiter(alloc, &mut text, form, *p, &world.wait_of(*p))?;
    }
    Ok(text)
}

fn add_waiter(
    alloc: Global,
    text: &mut Bytes,
    form: Form,
    p: CallerNo,
    waiting: &Waiting,
) -> Result<(), NoMemory>
    ensures { OnOk result (text.new.bytes ≡ text.old.bytes ++ waiter_text form p waiting.now) }
{
    match waiting {
        Waiting::Open(Ticket::Active(n)) => add_place(alloc, text, form, p, b"display", *n),
        Waiting::Open(Ticket::Input(n)) => add_place(alloc, text, form, p, b"input", *n),
        Waiting::Open(Ticket::AnySignal) => add_pieces(
            alloc,
            text,
            form,
            &[
                Piece::ByForm(b", ", b",{\"caller\":\""),
                Piece::Caller(p),
                Piece::ByForm(b" signal", b"\",\"for\":\"signal\"}"),
            ],
        ),
        _ => Ok(()),
    }
}

#[tactic(auto, unfolding(crate::specs::States::place_text))]
fn add_place(
    alloc: Global,
    text: &mut Bytes,
    form: Form,
    p: CallerNo,
    what: &[u8],
    n: ConsoleNo,
) -> Result<(), NoMemory>
    ensures { OnOk result (text.new.bytes ≡ text.old.bytes ++ place_text form p what.now n) }
{
    add_pieces(
        alloc,
        text,
        form,
        &[
            Piece::ByForm(b", ", b",{\"caller\":\""),
            Piece::Caller(p),
            Piece::ByForm(b" ", b"\",\"for\":\""),
            Piece::Text(what),
            Piece::ByForm(b" ", b"\",\"console\":"),
            Piece::Console(n),
            Piece::ByForm(b"", b"}"),
        ],
    )
}
