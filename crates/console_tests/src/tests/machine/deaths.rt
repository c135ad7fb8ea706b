//! The end of a process after each entry of a history, by the rules of docs/reference/switching.md.
use super::row::Row;
use super::row::Row::Call;
use super::seen::is_seen;
use super::{check_row, is_answered, open};
use std::alloc::Global;
use std::process::Abort;
use std::test::Fail;
use vt_world::World;

// Two processes, each at home at a console of its own.
const SESSION: &str = "rows = 2\ncols = 5\nconsoles = [1, 2]\nprocess = [{home = 1}, {home = 2}]\n";

// A handover: the first handles the switches of console 1 and lets the display go; the second requests it.
const HANDOVER: &[Row] = &[
    Call(0, "exit", "ok"),
    Call(1, "open 1", "num 0"),
    Call(2, "open 2", "num 0"),
    Call(1, "signals", "sigs 0"),
    Call(2, "signals", "sigs 0"),
    Call(1, "setmode 0 1 0 10 12 0", "ok"),
    Call(2, "activate 0 2", "ok"),
    Call(1, "signals", "sigs 512"),
    Call(2, "signals", "sigs 0"),
    Call(1, "reldisp 0 1", "ok"),
    Call(2, "exit", "ok"),
    Call(1, "waitsignal", "wait"),
    Call(1, "waitend", "err 4"),
    Call(1, "signals", "sigs 0"),
    Call(1, "exit", "ok"),
];

// After so many of these calls, the answer to the first process's exit, and the console that is in front then.
// After the twelfth the process has a ticket that has ended and isn't collected; after the last it is dead.
const ENDS: &[(usize, &str, u16)] = &[
    (0, "ok", 1),
    (1, "ok", 1),
    (2, "ok", 1),
    (3, "ok", 1),
    (4, "ok", 1),
    (5, "ok", 1),
    (6, "ok", 1),
    (7, "ok", 2),
    (8, "ok", 2),
    (9, "ok", 2),
    (10, "ok", 2),
    (11, "ok", 2),
    (12, "err 22", 2),
    (13, "ok", 2),
    (14, "ok", 2),
    (15, "err 3", 2),
];

fn check_end(
    by: &impl Abort,
    alloc: Global,
    world: &mut World,
    after: usize,
    reply: &str,
    front: u16,
) -> Result<(), Fail> {
    for k in 0..HANDOVER.len() {
        if k < after {
            check_row(by, alloc, world, HANDOVER[k])?;
        }
    }
    let ended = is_answered(alloc, world, 1, "exit", reply)?;
    assert!(by; ended && is_seen(world, Row::Front(front)), "after {after}");
    Ok(())
}

fn end(by: &impl Abort, alloc: Global, after: usize, reply: &str, front: u16) -> Result<(), Fail> {
    let mut world = open(alloc, SESSION)?;
    check_end(by, alloc, &mut world, after, reply, front)
}

#[test]
fn a_process_ends_after_each_entry(rt: HostRuntime) -> Result<(), Fail> {
    for &(after, reply, front) in ENDS {
        end(&rt, rt.alloc(), after, reply, front)?;
    }
    Ok(())
}
