//! Scan bytes, and side effects of texts. Expected queues and displays were computed by hand from
//! docs/reference/switching.md.
use super::row::Row;
use super::row::Row::{Call, Front, Keyed, Queue, Queued};
use super::{check, check_all, check_row, made, open};
use std::alloc::Global;
use std::process::Abort;
use std::test::Fail;
use vt_base::NoMemory;
use vt_world::World;

// Consoles 1 to 3, of which 2 is in front, and a privileged process.
const TYPED: &str = "rows = 1
cols = 3
consoles = [1, 2, 3]
front = 2
keymap = '''
keymaps 0
keycode 30 = a
keycode 2 = Console_3
keycode 3 = Last_Console
keycode 4 = Incr_Console
keycode 5 = Decr_Console
'''
process = [{privileged = true}]
";

#[test]
fn types_into_the_console_in_front(rt: HostRuntime) -> Result<(), Fail> {
    for rows in [SCANS, TEXT] {
        check(&rt, rt.alloc(), TYPED, rows)?;
    }
    Ok(())
}

// Scan bytes, and the console in front after each; the last rows are that no process may scan, and that the
// keyboard scans alone.
const SCANS: &[Row] = &[
    Keyed("scan 1e", 2),
    Keyed("scan 02", 3),
    Keyed("scan 9e", 3),
    Keyed("scan 1e", 3),
    Keyed("scan 03", 2),
    Keyed("scan 04", 3),
    Keyed("scan 84", 3),
    Keyed("scan 04", 1),
    Keyed("scan 05", 3),
    Keyed("scan 85", 3),
    Keyed("scan 05", 2),
    Queue(1, b"", 0),
    Queue(2, b"a", 0),
    Queue(3, b"a", 0),
    Call(1, "scan 1e", "err 25"),
    Call(0, "open 1", "err 25"),
];

// ESC [ 6 n, ESC [ 12 ; 3 ], ESC [ 15 ] and ESC [ 12 ; 4 ]: the report goes to the text's own console, and the
// display to 3 and back, since 4 isn't allocated. The key then requests the previous console.
const TEXT: &[Row] = &[
    Call(1, "open 1", "num 0"),
    Call(
        1,
        "write 0 1b5b366e1b5b31323b335d1b5b31355d1b5b31323b345d",
        "num 23",
    ),
    Queue(1, b"\x1B[1;1R", 0),
    Front(2),
    Keyed("scan 03", 3),
];

fn put(words: &mut Vec<u8>, bytes: &[u8]) -> Result<(), NoMemory> {
    words.extend_from_slice(bytes)?;
    Ok(())
}

// The words of one write of 681 reports of 6 bytes.
fn reports(alloc: Global) -> Result<Vec<u8>, NoMemory> {
    let mut words = Vec::new(alloc);
    put(&mut words, b"write 0 ")?;
    for _ in 0..681 {
        put(&mut words, b"1b5b366e")?;
    }
    Ok(words)
}

// Fills the queue of console 1 with them.
fn fill(alloc: Global, world: &mut World) -> Result<(), NoMemory> {
    let words = reports(alloc)?;
    let _ = made(alloc, world, 1, words.as_slice())?;
    Ok(())
}

// Console 1 comes to the front.
const FRONT: &[Row] = &[
    Call(1, "open 1", "num 0"),
    Call(1, "write 0 1b5b31323b315d", "num 7"),
];

// Types a letter so many times, and requests one report more.
fn type_and_report(
    by: &impl Abort,
    alloc: Global,
    world: &mut World,
    letters: u32,
) -> Result<(), Fail> {
    for _ in 0..letters {
        check_row(by, alloc, world, Keyed("scan 1e", 1))?;
    }
    Ok(check_row(by, alloc, world, Call(1, "write 0 1b5b366e", "num 4"))?)
}

fn fill_and_check(
    by: &impl Abort,
    alloc: Global,
    world: &mut World,
    case: &Filled,
) -> Result<(), Fail> {
    let (letters, len, dropped) = *case;
    check_all(by, alloc, world, FRONT)?;
    fill(alloc, world)?;
    type_and_report(by, alloc, world, letters)?;
    Ok(check_row(by, alloc, world, Queued(1, len, dropped))?)
}

fn check_filled(by: &impl Abort, alloc: Global, case: &Filled) -> Result<(), Fail> {
    let mut world = open(alloc, TYPED)?;
    fill_and_check(by, alloc, &mut world, case)
}

// How many letters are typed into the filled queue, and how many bytes it holds and how many pieces it dropped after
// one report more.
type Filled = (u32, usize, u32);

const FILLED: &[Filled] = &[(4, 4_096, 0), (5, 4_091, 1)];

#[test]
fn drops_what_does_not_fit(rt: HostRuntime) -> Result<(), Fail> {
    for case in FILLED {
        check_filled(&rt, rt.alloc(), case)?;
    }
    Ok(())
}
