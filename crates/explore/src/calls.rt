//! The calls of an order, as lines of a journal.
use crate::adding::{add, add_caller, add_number};
use session_order::{SessionProgress, start_of};
use session_text::{Session, program_of};
use std::alloc::Global;
use vt_base::{Bytes, CallerNo, NoMemory};
use vt_events::{Event, Reply};
use vt_journal::{add_event, add_reply};
use vt_world::World;

/// Adds the call of each turn of the order with its answer, and `between` between two of them.
pub(crate) fn add_calls(
    alloc: Global,
    text: &mut Bytes,
    s: &Session,
    order: &[u8],
    between: &[u8],
) -> Result<(), NoMemory> {
    let mut world = start_of(alloc, s)?;
    let mut progress = SessionProgress::start(alloc)?;
    let mut first = true;
    for n in order {
        if let Some(p) = CallerNo::new(u16::from(*n)) {
            if !first {
                add(alloc, text, between)?;
            }
            first = false;
            add_turn(alloc, text, s, &mut world, &mut progress, p)?;
        }
    }
    Ok(())
}

// Makes the caller's next call, and adds its line.
fn add_turn(
    alloc: Global,
    text: &mut Bytes,
    s: &Session,
    world: &mut World,
    progress: &mut SessionProgress,
    p: CallerNo,
) -> Result<(), NoMemory> {
    let Some(program) = program_of(s.programs(), p) else {
        return Ok(());
    };
    let Some(event) = progress.walk(p).next(alloc, program)? else {
        return Ok(());
    };
    let seq = progress.count(p);
    let reply = world.call(alloc, p, &event)?;
    progress.took(p, program, &reply);
    add_line(alloc, text, p, seq, &event, &reply)
}

// Adds the line of a call, without its LF.
fn add_line(
    alloc: Global,
    text: &mut Bytes,
    p: CallerNo,
    seq: u32,
    event: &Event,
    reply: &Reply,
) -> Result<(), NoMemory> {
    add_caller(alloc, text, p)?;
    add(alloc, text, b" ")?;
    add_number(alloc, text, u64::from(seq))?;
    add_event(alloc, text, event)?;
    add(alloc, text, b" =")?;
    add_reply(alloc, text, reply)
}
