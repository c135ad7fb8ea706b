//! Queues of input.
use super::checks::{check, check_made};
use in_queue::InQueue;
use std::alloc::Global;
use vt_base::{Bytes, NoMemory};

// The queue's bytes before the last piece, whether the piece of six fits, and the bytes and drops
// after it.
const PIECES: &[(u32, bool, usize, u32)] = &[
    (4_090, true, 4_096, 0),
    (4_091, false, 4_091, 1),
    (4_096, false, 4_096, 1),
];

fn fill(queue: &mut InQueue, count: u32) -> bool {
    for _ in 0..count {
        if !queue.put(b".") {
            return false;
        }
    }
    true
}

// The piece is put into a queue of so many bytes.
fn puts(queue: &mut InQueue, before: u32, fits: bool, after: usize, drops: u32) -> bool {
    fill(queue, before)
        && queue.put(b"\x1b[1;1R") == fits
        && queue.len() == after
        && queue.dropped() == drops
}

fn is_put(
    alloc: Global,
    before: u32,
    fits: bool,
    after: usize,
    drops: u32,
) -> Result<bool, NoMemory> {
    let mut queue = InQueue::new(alloc)?;
    Ok(puts(&mut queue, before, fits, after, drops))
}

#[test]
fn takes_a_piece_whole_or_not_at_all(rt: HostRuntime) {
    for &(before, fits, after, drops) in PIECES {
        let made = is_put(rt.alloc(), before, fits, after, drops);
        check(&rt, matches!(made, Ok(true)), before);
    }
}

fn has_first(queue: &InQueue, b: u8) -> bool {
    0 < queue.len() && queue.at(0) == b
}

// Takes two bytes and then the others, into a text that has room for eight.
fn takes(queue: &mut InQueue, out: &mut Bytes) -> bool {
    queue.put(b"abc")
        && take(queue, out, 2) == 2
        && queue.put(b"de")
        && queue.len() == 3
        && !queue.is_empty()
        && has_first(queue, b'c')
        && take(queue, out, 4) == 3
        && out.as_slice() == b"abcde".as_slice()
}

fn take(queue: &mut InQueue, out: &mut Bytes, max: usize) -> usize {
    if max <= out.room() {
        queue.take(out, max)
    } else {
        0
    }
}

fn clears(queue: &mut InQueue) -> bool {
    let is_put = queue.put(b"f");
    queue.clear();
    is_put && queue.len() == 0 && queue.dropped() == 0
}

fn gives(alloc: Global, queue: &mut InQueue) -> Result<bool, NoMemory> {
    let mut out = Bytes::with_room(alloc, 8)?;
    Ok(takes(queue, &mut out) && clears(queue))
}

fn gives_in_order(alloc: Global) -> Result<bool, NoMemory> {
    let mut queue = InQueue::new(alloc)?;
    gives(alloc, &mut queue)
}

#[test]
fn gives_the_first_bytes_first(rt: HostRuntime) {
    check_made(&rt, gives_in_order(rt.alloc()), "takes and a clearing");
}
