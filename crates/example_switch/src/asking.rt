//! `ask_for_each`: the calls of the server and of the one who asks, and their lines.
use crate::calling::{asker, server};
use crate::opening::opened;
use crate::telling::add_line;
use std::alloc::Global;
use vt_base::{Bytes, NoMemory, SigSet, Signal};
use vt_events::{Event, Reply};
use vt_world::World;

/// Process 2 requests the console of each digit of the text, one after another. Returns the lines of all calls.
pub(crate) fn ask_for_each(alloc: Global, text: &[u8]) -> Result<Bytes, NoMemory> {
    let mut lines = Bytes::new(alloc);
    let mut world = opened(alloc)?;
    for byte in text {
        if byte.is_ascii_digit() {
            ask_for(alloc, &mut world, *byte, &mut lines)?;
            heed_signals(alloc, &mut world, &mut lines)?;
        }
    }
    Ok(lines)
}

fn ask_for(alloc: Global, world: &mut World, digit: u8, lines: &mut Bytes) -> Result<(), NoMemory> {
    let event = Event::Activate(0, u16::from(digit.saturating_sub(b'0')));
    let reply = world.call(alloc, asker(), &event)?;
    lines.add(alloc, b"2 asks for ")?;
    add_line(alloc, lines, &[digit], &reply, world.display())
}

// Process 1 takes its signals, and does what each asks of it.
fn heed_signals(alloc: Global, world: &mut World, lines: &mut Bytes) -> Result<(), NoMemory> {
    let signals = signals_in(&world.call(alloc, server(), &Event::TakeSignals)?);
    if signals.has(Signal::numbered(10)) {
        release(alloc, world, 1, b"1 lets the display go", lines)?;
    }
    if signals.has(Signal::numbered(12)) {
        release(alloc, world, 2, b"1 has it again", lines)?;
    }
    Ok(())
}

fn signals_in(reply: &Reply) -> SigSet {
    match reply {
        Reply::Sigs(signals) => *signals,
        _ => SigSet::empty(),
    }
}

fn release(
    alloc: Global,
    world: &mut World,
    how: u16,
    words: &[u8],
    lines: &mut Bytes,
) -> Result<(), NoMemory> {
    let reply = world.call(alloc, server(), &Event::RelDisp(0, how))?;
    add_line(alloc, lines, words, &reply, world.display())
}
