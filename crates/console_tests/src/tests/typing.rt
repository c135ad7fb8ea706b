//! A shared machine: one thread types on its keyboard, and a process in another reads a line by turns.
ghost use Rattle.std.specs.Prelude.{◌≡◌, ℕ, false, IfOk};
ghost use Rattle.vt_hub.specs.Ready.{IsReady};
ghost use Rattle.vt_world.specs.State.{is_waiting};

use super::shared::{LIMITS, ask, closed, started};
use cooked::{Given, Stop, Termios, Tty};
use std::alloc::Global;
use std::marker::Brand;
use std::process::Abort;
use std::sync::Wait;
use std::test::Fail;
use std::thread;
use std::thread::Threads;
use vt_base::{CallerNo, Errno, NoMemory};
use vt_events::Event;
use vt_hub::{Hub, Opening, Pass, Run, Seat, Steward};
use vt_world::World;

const SESSION: &str = "rows = 2
cols = 10
consoles = [1]
keymap = '''
keymaps 0
keycode 14 = Delete
keycode 28 = Return
keycode 30 = a
keycode 48 = b
'''
[[process]]
home = 1
script = []
";

// `a`, `b`, an erase and Return, each pressed and released.
const SCANS: [u8; 8] = [0x1E, 0x9E, 0x30, 0xB0, 0x0E, 0x8E, 0x1C, 0x9C];

// Makes a call of a pass that doesn't wait, and returns whether its answer was "wait".
fn make<J: Opening, R: Wait>(
    seat: &Seat<J, R>,
    pass: &mut Pass<J>,
    event: Event,
) -> Result<bool, NoMemory>
    requires { IsReady seat.now false pass.old }
    ensures { IfOk result (λ waits. IsReady seat.now waits pass.new) }
{
    let answer = ask(seat, pass, false, event)?;
    Ok(answer.is_wait())
}

// Types all keys.
fn press<J: Opening, R: Wait>(seat: &Seat<J, R>, pass: Pass<J>) -> Result<Pass<J>, NoMemory>
    requires { IsReady seat.now false pass }
    ensures { IfOk result (λ pass. pass.hub ≡ seat.now) }
{
    let mut pass = pass;
    for b in SCANS {
        if make(seat, &mut pass, Event::Scan(b))? {
            return Ok(pass);
        }
    }
    Ok(pass)
}

// A process with its discipline, and whether it was given a line.
#[derive(Drop)]
struct Reader<J: Opening> {
    pass: Pass<J>,
    tty: Tty,
    found: bool,
}

// Whether the turn goes on after this stop: it does if nothing was typed.
fn may_go_on(stop: Option<Stop>) -> bool {
    match stop {
        None => true,
        Some(stop) => stop == Stop::Err(Errno::Again),
    }
}

// Turns until a line is given.
#[tactic(auto, using(crate::proofs::Ready::ready_turned))]
fn read_line<J: Opening, R: Wait>(
    seat: &Seat<J, R>,
    reader: Reader<J>,
) -> Result<Reader<J>, NoMemory>
    requires { IsReady seat.now false reader.pass }
    ensures { IfOk result (λ reader. reader.pass.hub ≡ seat.now) }
{
    let Reader {
        mut pass,
        mut tty,
        ..
    } = reader;
    if make(seat, &mut pass, Event::OpenCon(1))? {
        return Ok(Reader {
            pass,
            tty,
            found: false,
        });
    }
    for _ in 0..1_000_000 {
        let turn = tty.turn(seat.rt, seat.alloc, seat.hub, &mut pass, 0)?;
        let found = turn.given == Given::Line;
        if found || !may_go_on(turn.stop) {
            return Ok(Reader { pass, tty, found });
        }
        thread::yield_now();
    }
    Ok(Reader {
        pass,
        tty,
        found: false,
    })
}

// Whether a line was given, the discipline, and the run.
#[derive(Drop)]
struct Outcome {
    found: bool,
    tty: Tty,
    run: Run,
}

// The keys in one thread, and the line in another.
fn both<J: Opening + Send + Sync, R: Threads + Wait + Sync>(
    seat: &Seat<J, R>,
    keyboard: Pass<J>,
    reader: Reader<J>,
) -> Result<(Pass<J>, Reader<J>), NoMemory>
    requires keyboard { IsReady seat.now false keyboard }
    requires reader { IsReady seat.now false reader.pass }
    ensures keyboard { IfOk result (λ both. both.0.hub ≡ seat.now) }
    ensures reader { IfOk result (λ both. both.1.pass.hub ≡ seat.now) }
{
    let (keyboard, reader) = thread::join(
        seat.rt,
        || -> Result<Pass<J>, NoMemory>
            requires { IsReady seat.now false keyboard }
            ensures { IfOk result (λ pass. pass.hub ≡ seat.entry.now) }
        { press(seat, keyboard) },
        || -> Result<Reader<J>, NoMemory>
            requires { IsReady seat.now false reader.pass }
            ensures { IfOk result (λ reader. reader.pass.hub ≡ seat.entry.now) }
        { read_line(seat, reader) },
    );
    let keyboard = keyboard?;
    let reader = reader?;
    Ok((keyboard, reader))
}

// The run, after both have ended.
fn joined<J: Opening>(
    hub: Hub<J>,
    steward: Steward<J>,
    keyboard: Pass<J>,
    reader: Reader<J>,
) -> Result<Outcome, Fail>
    requires steward { steward.hub ≡ hub }
    requires keyboard { keyboard.hub ≡ hub }
    requires reader { reader.pass.hub ≡ hub }
{
    let mut steward = steward;
    let Reader { pass, tty, found } = reader;
    hub.join(&mut steward, keyboard);
    hub.join(&mut steward, pass);
    let run = closed(hub, steward)?;
    Ok(Outcome { found, tty, run })
}

fn share<J: Opening + Send + Sync, R: Threads + Wait + Sync>(
    rt: &R,
    alloc: Global,
    world: World,
    tty: Tty,
) -> Result<Outcome, Fail>
    requires start { world ≡ J.start }
    requires limits { J.limits ≡ record { events = 65_536; bytes = 67_108_864 } }
    requires free { (p : ℕ) → is_waiting world p ≡ false }
{
    let (hub, mut steward) = Hub::<J>::open(alloc, world, LIMITS)?;
    let keyboard = hub.split(&mut steward, CallerNo::KEYBOARD);
    let pass = hub.split(&mut steward, CallerNo::numbered(1));
    let reader = Reader {
        pass,
        tty,
        found: false,
    };
    let seat = Seat {
        rt,
        alloc,
        hub: &hub,
    };
    let (keyboard, reader) = both(&seat, keyboard, reader)?;
    joined(hub, steward, keyboard, reader)
}

fn typed<R: Threads + Wait + Sync>(rt: &R, alloc: Global) -> Result<Outcome, Fail> {
    let tty = usual(alloc)?;
    let world = started(alloc, SESSION)?;
    share::<Brand, R>(rt, alloc, world, tty)
}

fn usual(alloc: Global) -> Result<Tty, Fail> {
    let t = Termios::usual();
    if !t.valid() {
        return Err("no settings".into());
    }
    Ok(Tty::start(alloc, t)?)
}

#[test]
fn a_line_is_read_by_turns(rt: HostRuntime) -> Result<(), Fail> {
    let outcome = typed(&rt, rt.alloc())?;
    assert!(rt; outcome.found, "a line was given");
    assert!(rt;
        outcome.tty.cooked().line() == b"a\n".as_slice(),
        "the line"
    );
    assert!(rt; outcome.run.stop.is_none(), "there was room");
    Ok(())
}
