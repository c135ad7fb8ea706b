//! Switches, waits and deaths in the machine's marks and counts. Expected marks were computed by hand from
//! docs/reference/switching.md and ioctl_console(2).
use super::row::Row;
use super::row::Row::{Call, Drawn, Front, Hops, Marks, Sized, Waits};
use super::{answers, check, journal, open};
use std::alloc::Global;
use std::process::Abort;
use std::test::Fail;
use vt_base::{Bytes, CallerNo, NoMemory};
use vt_events::Event;
use vt_world::{Spare, World};

// Consoles 1 to 3, of which 1 is in front, and three privileged processes.
const THREE: &str = "rows = 1
cols = 3
consoles = [1, 2, 3]
keymap = '''
keymaps 0
keycode 2 = Console_2
keycode 3 = SAK
'''
process = [{privileged = true}, {privileged = true}, {privileged = true}]
";

// Consoles 1 and 2, of which 2 is in front; process 1 is at home at 1, process 2 nowhere.
const TWO: &str = "rows = 1
cols = 3
consoles = [1, 2]
front = 2
keymap = 'keymaps 0'
process = [{home = 1}, {}]
";

// Calls, each list of them on a machine of its own.
const CALLS: &[(&str, &[Row])] = &[
    (THREE, ACTIVATION),
    (THREE, GRAPHICS),
    (THREE, ATTENTION),
    (TWO, ALLOCATION),
];

#[test]
fn calls_move_the_display(rt: HostRuntime) -> Result<(), Fail> {
    for (session, rows) in CALLS {
        check(&rt, rt.alloc(), session, rows)?;
    }
    Ok(())
}

// A short activation ends a wait.
const ACTIVATION: &[Row] = &[
    Marks(&[]),
    Call(3, "open 1", "num 0"),
    Call(2, "open 1", "num 0"),
    Call(3, "waitactive 0 2", "wait"),
    Waits(3, true),
    Call(3, "waitend", "err 11"),
    Call(3, "getkd 0", "err 22"),
    Call(2, "write 0 1b5b31323b325d1b5b31323b335d", "num 14"),
    Marks(&[102, 302, 103, 303]),
    Front(3),
    Hops(2),
    Waits(3, false),
    Call(3, "waitend", "ok"),
    Marks(&[]),
];

// Graphics keep the display.
const GRAPHICS: &[Row] = &[
    Call(1, "open 0", "num 0"),
    Call(1, "setkd 0 1", "ok"),
    Call(0, "scan 02", "ok"),
    Marks(&[102]),
    Call(1, "activate 0 2", "ok"),
    Marks(&[102]),
    Front(1),
    Hops(0),
];

// The attention key ends the processes that use the front.
const ATTENTION: &[Row] = &[
    Call(1, "open 1", "num 0"),
    Call(3, "open 1", "num 0"),
    Call(2, "open 2", "num 0"),
    Call(1, "setmode 0 1 0 10 12 0", "ok"),
    Call(2, "activate 0 2", "ok"),
    Call(0, "scan 03", "ok"),
    Marks(&[401, 302, 403]),
    Front(2),
    Hops(1),
    Call(1, "signals", "err 3"),
    Call(3, "signals", "err 3"),
    Call(2, "signals", "sigs 0"),
];

// A console has a screen after it is allocated.
const ALLOCATION: &[Row] = &[
    Call(1, "open 1", "num 0"),
    Call(1, "activate 0 63", "ok"),
    Front(63),
    Hops(1),
    Sized(1, 3),
    Drawn(63, true),
    Drawn(3, false),
];

// The journal of a write without a spare.
fn written(alloc: Global, world: &mut World, caller: CallerNo) -> Result<Bytes, NoMemory> {
    let event = Event::Write(0, Bytes::from_slice(alloc, b"ab")?);
    let (reply, _unused) = world.step(caller, &event, Spare::none(alloc));
    journal(alloc, caller, event, reply)
}

fn check_written(by: &impl Abort, alloc: Global, world: &mut World) -> Result<(), Fail> {
    let caller = CallerNo::new(1).ok_or("no caller")?;
    let journal = written(alloc, world, caller)?;
    assert!(by; answers(journal.as_slice(), "err 9"));
    Ok(())
}

#[test]
fn none_is_a_spare(rt: HostRuntime) -> Result<(), Fail> {
    let mut world = open(rt.alloc(), TWO)?;
    check_written(&rt, rt.alloc(), &mut world)
}
