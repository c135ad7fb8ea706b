//! Facts to be seen of a machine between its calls.
use super::row::Row;
use vt_base::{CallerNo, ConsoleNo};
use vt_world::{Mark, World};

/// Whether this fact is seen of the machine; a call is no fact.
pub(crate) fn is_seen(world: &World, row: Row) -> bool {
    match row {
        Row::Call(..) | Row::Keyed(..) => false,
        Row::Marks(codes) => has_marks(world, codes),
        Row::Front(n) => world.display().get() == n,
        Row::Hops(hops) => world.hops() == hops,
        Row::Waits(p, waits) => is_waiting(world, p, waits),
        Row::Queue(n, bytes, dropped) => {
            is_queued(world, n, bytes.len(), dropped) && has_queued(world, n, bytes)
        }
        Row::Queued(n, len, dropped) => is_queued(world, n, len, dropped),
        Row::Drawn(n, drawn) => is_drawn(world, n, drawn),
        Row::Sized(rows, cols) => is_sized(world, rows, cols),
    }
}

fn code_of(mark: &Mark) -> u16 {
    match mark {
        Mark::Asked(n) => 100 + n.get(),
        Mark::Raised { to, .. } => 200 + to.get(),
        Mark::Hopped(hop) => 300 + hop.to.get(),
        Mark::Ended(p) => 400 + p.get(),
    }
}

fn has_marks(world: &World, codes: &[u16]) -> bool {
    let trace = world.trace();
    if trace.len() != codes.len() {
        return false;
    }
    for k in 0..codes.len() {
        if code_of(&trace[k]) != codes[k] {
            return false;
        }
    }
    true
}

fn is_sized(world: &World, rows: u8, cols: u8) -> bool {
    let size = world.size();
    size.rows == rows && size.cols == cols
}

fn is_waiting(world: &World, p: u16, waits: bool) -> bool {
    match CallerNo::new(p) {
        Some(p) => world.waiting(p) == waits,
        None => false,
    }
}

fn is_queued(world: &World, n: u16, len: usize, dropped: u32) -> bool {
    match ConsoleNo::new(n) {
        Some(n) => {
            let queue = world.queue(n);
            queue.len() == len && queue.dropped() == dropped
        }
        None => false,
    }
}

// Whether the queue begins with these bytes.
fn has_queued(world: &World, n: u16, bytes: &[u8]) -> bool {
    let Some(n) = ConsoleNo::new(n) else {
        return false;
    };
    let queue = world.queue(n);
    for i in 0..bytes.len() {
        if i >= queue.len() || queue.at(i) != bytes[i] {
            return false;
        }
    }
    true
}

fn is_drawn(world: &World, n: u16, drawn: bool) -> bool {
    match ConsoleNo::new(n) {
        Some(n) => world.screen(n).is_some() == drawn,
        None => false,
    }
}
