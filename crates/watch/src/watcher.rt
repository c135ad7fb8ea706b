//! The text of a history.
ghost use Rattle.std.specs.Prelude.{◌≡◌, ◌≤◌, ◌++◌, IfOk, OnOk, length};
ghost use Rattle.watch.specs.Texts.{end_text, head_text, watch_text};
ghost use Rattle.watch.specs.Watch.{IfText, IsWatched, verdict_of};
ghost use Rattle.session_run.specs.Final.{final_text};
ghost use Rattle.session_order.specs.Sessions.{setup_of, start_of};
ghost use Rattle.vt_check.specs.Verdicts.{Judges};

use crate::entries::add_end;
use crate::following::Following;
use crate::form::Form;
use crate::states::state_text;
use crate::watched::Watched;
use session_order::start_of;
use session_run::{Run, final_text};
use session_text::Session;
use std::alloc::Global;
use vt_base::{Bytes, NoMemory};
use vt_events::Entry;
use vt_explain::{Explained, HopWhy, explain};
use vt_journal::{Journal, Log};
use vt_world::World;

/// The text with the facts of each entry of the journal, if it is a legal one of the session (docs/reference/watch.md).
pub(crate) fn watch_text(
    alloc: Global,
    form: Form,
    s: &Session,
    j: &Journal,
) -> Result<Watched, NoMemory>
    ensures judges { IfOk result
        (λ x. Judges (setup_of s.now) j.now.entries j.now.tail (verdict_of x)) }
    ensures text { IfOk result
        (λ x. IfText x (IsWatched form (start_of s.now) j.now.entries)) }
{
    match explain(alloc, s, j)? {
        Explained::Cert(cert) => {
            let world = start_of(alloc, s)?;
            let text = history_text(alloc, form, cert.as_slice(), world, j.entries.as_slice())?;
            Ok(Watched::Text(text))
        }
        Explained::Illegal { index, why } => Ok(Watched::Illegal { index, why }),
    }
}

/// The text of the entries from this machine on.
pub(crate) fn history_text(
    alloc: Global,
    form: Form,
    cert: &[HopWhy],
    world: World,
    entries: &[Entry],
) -> Result<Bytes, NoMemory>
    requires { length entries.now ≤ 1_000_000 }
    ensures { IfOk result (λ text. text.bytes ≡ watch_text form cert.now world entries.now) }
{
    let mut text = head_text(alloc, form, &world)?;
    let mut following = Following { world, since: 0 };
    for i in 0..entries.len() {
        following.follow(alloc, form, cert, i as u32, &entries[i], &mut text)?;
    }
    add_end_text(alloc, form, &mut text, entries.len() as u32, following)?;
    Ok(text)
}

// The text before the first entry.
fn head_text(alloc: Global, form: Form, world: &World) -> Result<Bytes, NoMemory>
    ensures { IfOk result (λ text. text.bytes ≡ head_text form world.now) }
{
    match form {
        Form::Lines => {
            let mut text = state_text(alloc, Form::Lines, world, 0)?;
            text.add(alloc, b"\n")?;
            Ok(text)
        }
        Form::Json => Ok(Bytes::new(alloc)),
    }
}

// Adds the text after the last entry, with this machine after it.
fn add_end_text(
    alloc: Global,
    form: Form,
    text: &mut Bytes,
    entries: u32,
    following: Following,
) -> Result<(), NoMemory>
    ensures { OnOk result (text.new.bytes ≡ text.old.bytes ++ end_text form entries following.world) }
{
    let Following { world, since: _ } = following;
    match form {
        Form::Lines => Ok(()),
        Form::Json => {
            let last = last_text(alloc, world)?;
            add_end(alloc, text, entries, last.as_slice())
        }
    }
}

// The final text of the machine.
fn last_text(alloc: Global, world: World) -> Result<Bytes, NoMemory>
    ensures { IfOk result (λ text. text.bytes ≡ final_text world) }
{
    let run = Run {
        world,
        log: Log::with_room(alloc, 0, 0)?,
        stop: None,
    };
    final_text(alloc, &run)
}
