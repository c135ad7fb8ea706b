//! A race whose hooks count their calls, with a gate that makes sure of one signal. The text of a race and its
//! status are tested in `session_tests`.
ghost use Rattle.std.specs.Prelude.{◌≡◌, ℕ, ◌<◌, [], length, slice_index_or, vec_len};
ghost use Rattle.session_run.specs.Runs.{HasHooks};

use session_run::{Run, race};
use session_text::{Program, Session, read};
use sig_hooks::{Handler, Hook, HookTable};
use std::alloc::Global;
use std::sync::atomic::Ordering::SeqCst;
use std::sync::atomic::{AtomicBool, AtomicU64};
use std::sync::{Arc, Wait};
use std::test::Fail;
use std::thread;
use std::thread::Threads;
use test_sessions::HANDOVER;
use vt_base::{CallerNo, NoMemory, Signal};
use vt_events::{Entry, Reply};
use vt_io::Gate;

// How often a caller that is held looks again.
const TURNS: u32 = 1_000_000;

// Holds caller 2's call 2, which requests the display, until it was asked for caller 1's call 3: then caller 1
// handles its switches, by its call 2.
#[derive(Drop)]
struct SetFirst {
    is_set: AtomicBool,
}

impl Gate for SetFirst {
    fn before<R: Wait>(&self, _rt: &R, caller: CallerNo, seq: u32) {
        match (caller.get(), seq) {
            (1, 3) => self.is_set.store(true, SeqCst),
            (2, 2) => self.hold(),
            _ => (),
        }
    }
}

impl SetFirst {
    fn hold(&self) {
        for _ in 0..TURNS {
            if self.is_set.load(SeqCst) {
                return;
            }
            thread::yield_now();
        }
    }
}

type Count = Arc<AtomicU64, Global>;

// Races the session with hooks of these tables, which count how often they are asked.
fn race_asking<R: Threads + Wait + Sync>(
    rt: &R,
    alloc: Global,
    s: &Session,
    acts: &[HookTable],
    asked: &Count,
) -> Result<Run, NoMemory>
    requires { HasHooks s.now.programs acts.now }
{
    let mut handlers = Vec::new(alloc);
    for table in acts {
        let table = *table;
        let asked = asked.clone()?;
        handlers.push(move |s: Signal| {
            asked.fetch_add(1, SeqCst);
            table.act(s)
        })?;
    }
    race_by(rt, alloc, s, acts, handlers)
}

fn race_by<H: Handler + Send + Sync, R: Threads + Wait + Sync>(
    rt: &R,
    alloc: Global,
    s: &Session,
    acts: &[HookTable],
    handlers: Vec<H>,
) -> Result<Run, NoMemory>
    requires hooks { HasHooks s.now.programs acts.now }
    requires len { vec_len handlers ≡ length acts.now }
    requires each { (i : ℕ) (h : H) → i < vec_len handlers → h ≡ slice_index_or handlers.items i h
        → H.answers h (slice_index_or acts.now i []) }
{
    let mut hooks = Vec::new(alloc);
    for handler in handlers {
        let i = hooks.len();
        hooks.push(Hook::new(handler, acts[i]))?;
    }
    let gate = SetFirst {
        is_set: AtomicBool::new(false),
    };
    race(rt, alloc, s, hooks, &gate)
}

// How many signals the callers were given.
fn signals_in(entries: &[Entry]) -> u64 {
    let mut count = 0u64;
    for entry in entries {
        if let Reply::Sigs(set) = entry.reply {
            count = count.saturating_add(u64::from(set.bits().count_ones()));
        }
    }
    count
}

// Whether there was the one signal, and one call of a hook.
fn is_counted(asked: &Count, run: &Run) -> bool {
    signals_in(run.log.entries()) == 1 && asked.load(SeqCst) == 1
}

// Whether the journal of two processes had room, and a hook was asked once about the one signal.
fn counts_to<R: Threads + Wait + Sync>(
    rt: &R,
    alloc: Global,
    s: &Session,
    asked: &Count,
) -> Result<bool, Fail> {
    let [
        Program::Keys(_),
        Program::Script { hooks: one, .. },
        Program::Script { hooks: two, .. },
    ] = s.programs()
    else {
        return Err("no session of two processes".into());
    };
    let run = race_asking(rt, alloc, s, &[*one, *two], asked)?;
    Ok(run.stop.is_none() && is_counted(asked, &run))
}

fn counts<R: Threads + Wait + Sync>(rt: &R, alloc: Global, s: &Session) -> Result<bool, Fail> {
    let asked = Arc::new(alloc, AtomicU64::new(0))?;
    counts_to(rt, alloc, s, &asked)
}

#[test]
fn a_hook_is_asked_once_for_the_one_signal(rt: HostRuntime) -> Result<(), Fail> {
    let session = read(rt.alloc(), HANDOVER.as_bytes())?;
    let counted = counts(&rt, rt.alloc(), &session)?;
    assert!(rt;
        counted,
        "one signal, one call of a hook, and room in the journal"
    );
    Ok(())
}
