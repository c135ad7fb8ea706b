//! A hub over a machine with two processes: another thread makes their calls in the order of the serial play,
//! while this one reads the display.
ghost use Rattle.std.specs.Prelude.{◌≡◌, ℕ, false, IfOk};
ghost use Rattle.vt_hub.specs.Ready.{IsReady};
ghost use Rattle.vt_world.specs.Refusals.{ends_wait};
ghost use Rattle.vt_world.specs.State.{is_waiting};

use super::shared::{LIMITS, ask, closed, started};
use std::alloc::Global;
use std::marker::Brand;
use std::process::Abort;
use std::sync::Wait;
use std::test::Fail;
use std::thread;
use std::thread::Threads;
use test_sessions::HANDOVER;
use vt_base::{Bytes, CallerNo, NoMemory};
use vt_events::Event;
use vt_hub::{Answer, Hub, Opening, Pass, Run, Seat, Steward};
use vt_journal::{print, read_event};
use vt_world::{Spare, World};

// The caller of each call, in the order of the serial play, after the keyboard's.
const CALLS: &[(u16, &str)] = &[
    (1, "open 1"),
    (2, "open 2"),
    (1, "signals"),
    (2, "signals"),
    (1, "setmode 0 1 0 10 12 0"),
    (2, "activate 0 2"),
    (1, "signals"),
    (2, "signals"),
    (1, "reldisp 0 1"),
    (2, "exit"),
    (1, "waitsignal"),
    (1, "waitend"),
    (1, "signals"),
    (1, "exit"),
];

const JOURNAL: &str = "%journal 2
k0 0 exit = ok
p1 0 open 1 = num 0
p2 0 open 2 = num 0
p1 1 signals = sigs 0
p2 1 signals = sigs 0
p1 2 setmode 0 1 0 10 12 0 = ok
p2 2 activate 0 2 = ok
p1 3 signals = sigs 512
p2 3 signals = sigs 0
p1 4 reldisp 0 1 = ok
p2 4 exit = ok
p1 5 waitsignal = wait
p1 6 waitend = err 4
p1 7 signals = sigs 0
p1 8 exit = ok
%end 15 960
";

fn ends(event: &Event) -> bool
    ensures { result ≡ ends_wait event.now }
{
    matches!(event, Event::WaitEnd)
}

// Makes the call that the words spell, and returns whether it was entered.
fn make<J: Opening, R: Wait>(
    seat: &Seat<J, R>,
    pass: &mut Pass<J>,
    waits: &mut bool,
    words: &str,
) -> Result<bool, NoMemory>
    requires ready { IsReady seat.now waits.old pass.old }
    ensures { IfOk result (λ _. IsReady seat.now waits.new pass.new) }
{
    let Some(event) = read_event(seat.alloc, words.as_bytes())? else {
        return Ok(false);
    };
    if *waits && !ends(&event) {
        return Ok(false);
    }
    let answer = ask(seat, pass, *waits, event)?;
    *waits = answer.is_wait();
    Ok(matches!(answer, Answer::Done { .. }))
}

// The passes of callers 1 and 2, and whether each of their calls was entered.
#[derive(Drop)]
struct Callers<J: Opening> {
    one: Pass<J>,
    two: Pass<J>,
    made: bool,
}

fn make_all<J: Opening, R: Wait>(
    seat: &Seat<J, R>,
    callers: Callers<J>,
) -> Result<Callers<J>, NoMemory>
    requires one { IsReady seat.now false callers.one }
    requires two { IsReady seat.now false callers.two }
    ensures one { IfOk result (λ callers. callers.one.hub ≡ seat.now) }
    ensures two { IfOk result (λ callers. callers.two.hub ≡ seat.now) }
{
    let Callers {
        mut one,
        mut two,
        ..
    } = callers;
    let mut one_waits = false;
    let mut two_waits = false;
    let mut made = true;
    for &(p, words) in CALLS {
        let entered = if p == 1 {
            make(seat, &mut one, &mut one_waits, words)?
        } else {
            make(seat, &mut two, &mut two_waits, words)?
        };
        made = made && entered;
    }
    Ok(Callers { one, two, made })
}

// A pass, and whether the display that it read was 1 until it was 2.
#[derive(Drop)]
struct Reader<J: Opening> {
    pass: Pass<J>,
    turned: bool,
}

fn watch<J: Opening, R: Wait>(seat: &Seat<J, R>, pass: Pass<J>) -> Reader<J>
    requires { pass.hub ≡ seat.now }
    ensures { result.pass.hub ≡ seat.now }
{
    let mut pass = pass;
    for _ in 0..1_000_000 {
        match seat.hub.display_now(&mut pass).get() {
            1 => thread::yield_now(),
            n => {
                return Reader {
                    pass,
                    turned: n == 2,
                };
            }
        }
    }
    Reader {
        pass,
        turned: false,
    }
}

// The calls in another thread, and the display in this one.
fn both<J: Opening + Send + Sync, R: Threads + Wait + Sync>(
    seat: &Seat<J, R>,
    callers: Callers<J>,
    reader: Pass<J>,
) -> Result<(Callers<J>, Reader<J>), NoMemory>
    requires one { IsReady seat.now false callers.one }
    requires two { IsReady seat.now false callers.two }
    requires reader { reader.hub ≡ seat.now }
    ensures one { IfOk result (λ both. both.0.one.hub ≡ seat.now) }
    ensures two { IfOk result (λ both. both.0.two.hub ≡ seat.now) }
    ensures reader { IfOk result (λ both. both.1.pass.hub ≡ seat.now) }
{
    let (callers, reader) = thread::join(
        seat.rt,
        || -> Result<Callers<J>, NoMemory>
            requires { IsReady seat.now false callers.one × IsReady seat.now false callers.two }
            ensures { IfOk result (λ callers. (callers.one.hub ≡ seat.entry.now)
                × (callers.two.hub ≡ seat.entry.now)) }
        { make_all(seat, callers) },
        || -> Reader<J>
            requires { reader.hub ≡ seat.now }
            ensures { result.pass.hub ≡ seat.entry.now }
        { watch(seat, reader) },
    );
    let callers = callers?;
    Ok((callers, reader))
}

// Whether all calls were made, and the display turned; and the run.
#[derive(Drop)]
struct Outcome {
    made: bool,
    turned: bool,
    run: Run,
}

// The run, after both have ended.
fn joined<J: Opening>(
    hub: Hub<J>,
    steward: Steward<J>,
    callers: Callers<J>,
    reader: Reader<J>,
) -> Result<Outcome, Fail>
    requires steward { steward.hub ≡ hub }
    requires one { callers.one.hub ≡ hub }
    requires two { callers.two.hub ≡ hub }
    requires reader { reader.pass.hub ≡ hub }
{
    let mut steward = steward;
    let Callers { one, two, made } = callers;
    let Reader { pass, turned } = reader;
    hub.join(&mut steward, one);
    hub.join(&mut steward, two);
    hub.join(&mut steward, pass);
    let run = closed(hub, steward)?;
    Ok(Outcome { made, turned, run })
}

// The calls of callers 1 and 2 after the keyboard's, whose pass is the reader's then.
fn share<J: Opening + Send + Sync, R: Threads + Wait + Sync>(
    rt: &R,
    alloc: Global,
    world: World,
) -> Result<Outcome, Fail>
    requires start { world ≡ J.start }
    requires limits { J.limits ≡ record { events = 65_536; bytes = 67_108_864 } }
    requires free { (p : ℕ) → is_waiting world p ≡ false }
{
    let (hub, mut steward) = Hub::<J>::open(alloc, world, LIMITS)?;
    let mut reader = hub.split(&mut steward, CallerNo::KEYBOARD);
    let one = hub.split(&mut steward, CallerNo::numbered(1));
    let two = hub.split(&mut steward, CallerNo::numbered(2));
    hub.call(rt, &mut reader, Event::Exit, Spare::none(alloc));
    let callers = Callers {
        one,
        two,
        made: false,
    };
    let seat = Seat {
        rt,
        alloc,
        hub: &hub,
    };
    let (callers, reader) = both(&seat, callers, reader)?;
    joined(hub, steward, callers, reader)
}

fn read_beside<R: Threads + Wait + Sync>(rt: &R, alloc: Global) -> Result<Outcome, Fail> {
    let world = started(alloc, HANDOVER)?;
    share::<Brand, R>(rt, alloc, world)
}

fn has_journal(alloc: Global, run: &Run) -> Result<bool, NoMemory> {
    let mut text = Bytes::new(alloc);
    print(alloc, run.log.entries(), 2, &run.tail(), &mut text)?;
    Ok(text.as_slice() == JOURNAL.as_bytes())
}

fn check(by: &impl Abort, alloc: Global, outcome: &Outcome) -> Result<(), NoMemory> {
    let same = has_journal(alloc, &outcome.run)?;
    assert!(by; outcome.made, "each call was entered");
    assert!(by; outcome.turned, "the display was 1, and then 2");
    assert!(by; same, "the journal");
    Ok(())
}

#[test]
fn the_display_is_read_while_others_call(rt: HostRuntime) -> Result<(), Fail> {
    let outcome = read_beside(&rt, rt.alloc())?;
    Ok(check(&rt, rt.alloc(), &outcome)?)
}
