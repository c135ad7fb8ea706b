//! A list under the lock, with a line for each entry. Expected words are computed by hand: 64 for each
//! entry, plus the display of the last line.
ghost use Rattle.std.specs.Prelude.{◌≡◌, ◌+◌, ◌<◌, ℕ, true, false, None};
ghost use Rattle.std.specs.Prelude.{List, [], ◌∷◌, ◌++◌, length, map};
ghost use Rattle.std.specs.Option.{option_map};
ghost use Rattle.turn_lock.specs.History.{display_after};
ghost use Rattle.turn_lock.specs.Views.{IsFirst};
ghost use Rattle.turn_lock.specs.Words.{view, RestsIn};
ghost use Rattle.turn_lock.specs.declared.view.Role.TheVariants.{Caller};
ghost use Rattle.std.proofs.Common.{rules};
ghost use Rattle.turn_lock.specs.declared.entry.Entry.{Entry};

use std::alloc::Global;
use std::process::Abort;
use std::sync::Wait;
use std::test::Fail;
use std::thread;
use std::thread::Threads;
use turn_lock::{Kept, Pass, TurnLock};
use vt_base::NoMemory;

// The display before the first line.
const BEFORE: u8 = 7;

#[derive(Clone, Copy)]
struct Line {
    by: u32,
    seq: u32,
    display: u8,
    what: u8,
    ghost shown: { (0 < display) × (display < 64) },
}

#[derive(Drop)]
struct Lines {
    lines: Vec<Line>,
    display: u8,
    // The number of the caller that stopped the list.
    stop: Option<u32>,
    ghost shown: { display < 64 },
    ghost last: { display_after {W = ℕ} 7
        (map (λ l. record { by = l.by; seq = l.seq; display = l.display; what = l.what }) lines.items)
        ≡ display },
}

impl Kept for Lines {
    type What = u8;

    type Stop = u8;

    ghost before = { 7 };

    ghost right = { λ log. Unit {0} };

    ghost entries = { λ s.
        map (λ l. record { by = l.by; seq = l.seq; display = l.display; what = l.what }) s.lines.items };

    ghost seal = { λ s. option_map (λ n. record { by = n; what = 0 }) s.stop };

    ghost display = { Prim.search rules };

    fn front(&self) -> u64 {
        64 * self.lines.len() as u64 + u64::from(self.display)
    }
}

impl Lines {
    fn new(alloc: Global) -> Lines
        ensures entries { ⟦<Lines as Kept>⟧.entries result ≡ [] }
        ensures seal { ⟦<Lines as Kept>⟧.seal result ≡ None }
    {
        Lines {
            lines: Vec::new(alloc),
            display: BEFORE,
            stop: None,
        }
    }

    // Adds a line if there is room and the list wasn't stopped, and returns whether it did.
    fn add(&mut self, line: Line) -> bool
        ensures added { result ≡ true
            → ⟦<Lines as Kept>⟧.entries self.new
            ≡ ⟦<Lines as Kept>⟧.entries self.old
            ++ record { by = line.by; seq = line.seq; display = line.display; what = line.what } ∷ [] }
        ensures open { result ≡ true → self.old.stop ≡ None }
        ensures stop { self.new.stop ≡ self.old.stop }
        ensures room { result ≡ true → length (⟦<Lines as Kept>⟧.entries self.old) < 1000000 }
        ensures same { result ≡ false
            → ⟦<Lines as Kept>⟧.entries self.new ≡ ⟦<Lines as Kept>⟧.entries self.old }
    {
        if self.stop.is_some() || self.lines.len() >= 1_000_000 {
            return false;
        }
        if self.lines.push(line).is_err() {
            return false;
        }
        self.display = line.display;
        true
    }
}

// Publishes a line if there is room and the list wasn't stopped, and returns whether it did.
fn publish<R: Wait>(rt: &R, lock: &TurnLock<Lines>, pass: &mut Pass<Lines>, line: Line) -> bool
    requires own { RestsIn lock.now pass.old }
    requires by { (view pass.old).role ≡ Caller line.by }
    requires seq { length (view pass.old).mine ≡ line.seq }
    ensures own { RestsIn lock.now pass.new }
    ensures by { (view pass.new).role ≡ Caller line.by }
    ensures seq { result ≡ true → length (view pass.new).mine ≡ line.seq + 1 }
{
    let mut held = lock.enter(rt, pass);
    if !held.value().add(line) {
        held.leave();
        return false;
    }
    held.publish();
    held.leave();
    true
}

// Publishes 1,000 lines, and returns whether it did.
fn publish_all<R: Wait>(rt: &R, lock: &TurnLock<Lines>, pass: &mut Pass<Lines>, by: u32) -> bool
    requires own { RestsIn lock.now pass.old }
    requires by { (view pass.old).role ≡ Caller by }
    requires seq { (view pass.old).mine ≡ [] }
    requires small { by < 10 }
    ensures own { RestsIn lock.now pass.new }
    ensures by { (view pass.new).role ≡ Caller by }
{
    for seq in 0..1_000 {
        let display = ((seq + by) % 63 + 1) as u8;
        let line = Line {
            by,
            seq,
            display,
            what: 0,
        };
        if !publish(rt, lock, pass, line) {
            return false;
        }
    }
    true
}

// The same, for a pass that goes into a thread and comes back.
fn work<R: Wait>(
    rt: &R,
    lock: &TurnLock<Lines>,
    mut pass: Pass<Lines>,
    by: u32,
) -> (Pass<Lines>, bool)
    requires own { RestsIn lock.now pass }
    requires by { (view pass).role ≡ Caller by }
    requires seq { (view pass).mine ≡ [] }
    requires small { by < 10 }
    ensures own { RestsIn lock.now result.0 }
    ensures by { (view result.0).role ≡ Caller by }
{
    let done = publish_all(rt, lock, &mut pass, by);
    (pass, done)
}

// Two threads publish 1,000 lines each: the word of the history, the list, and whether they did.
fn race<R: Threads + Wait + Sync>(rt: &R, alloc: Global) -> Result<(u64, Lines, bool), NoMemory> {
    let (lock, mut first) = TurnLock::open(alloc, Lines::new(alloc))?;
    let one = lock.split(&mut first, 1);
    let two = lock.split(&mut first, 2);
    let (one, two) = thread::join(
        rt,
        || -> (Pass<Lines>, bool)
            requires { RestsIn lock one × ((view one).role ≡ Caller 1) × ((view one).mine ≡ []) }
            ensures { RestsIn lock result.0 × ((view result.0).role ≡ Caller 1) }
        { work(rt, &lock, one, 1) },
        || -> (Pass<Lines>, bool)
            requires { RestsIn lock two × ((view two).role ≡ Caller 2) × ((view two).mine ≡ []) }
            ensures { RestsIn lock result.0 × ((view result.0).role ≡ Caller 2) }
        { work(rt, &lock, two, 2) },
    );
    lock.join(&mut first, one.0);
    lock.join(&mut first, two.0);
    let word = lock.front(&mut first);
    Ok((word, lock.close(first), one.1 && two.1))
}

// Stops the list, unless it was stopped.
fn stop<R: Wait>(rt: &R, lock: &TurnLock<Lines>, pass: &mut Pass<Lines>, by: u32)
    requires own { RestsIn lock.now pass.old }
    requires by { (view pass.old).role ≡ Caller by }
    ensures own { RestsIn lock.now pass.new }
    ensures by { (view pass.new).role ≡ Caller by }
{
    let mut held = lock.enter(rt, pass);
    if held.value().stop.is_some() {
        held.leave();
        return;
    }
    held.value().stop = Some(by);
    held.leave();
}

// The words that a pass reads while another has the value, and the list after it was stopped.
#[derive(Drop)]
struct Beside {
    entered: u64,
    added: u64,
    published: u64,
    refused: bool,
    list: Lines,
}

fn read_beside<R: Wait>(rt: &R, alloc: Global) -> Result<Beside, NoMemory> {
    let (lock, mut first) = TurnLock::open(alloc, Lines::new(alloc))?;
    let mut one = lock.split(&mut first, 1);
    let mut three = lock.split(&mut first, 3);
    let mut held = lock.enter(rt, &mut one);
    let entered = lock.front(&mut three);
    let line = Line {
        by: 1,
        seq: 0,
        display: 9,
        what: 0,
    };
    if !held.value().add(line) {
        held.leave();
        return Err(NoMemory);
    }
    let added = lock.front(&mut three);
    held.publish();
    let published = lock.front(&mut three);
    held.leave();
    stop(rt, &lock, &mut one, 1);
    let line = Line {
        by: 3,
        seq: 0,
        display: 9,
        what: 0,
    };
    let refused = !publish(rt, &lock, &mut three, line);
    lock.join(&mut first, one);
    lock.join(&mut first, three);
    let list = lock.close(first);
    Ok(Beside {
        entered,
        added,
        published,
        refused,
        list,
    })
}

// Whether the list has 1,000 lines of the caller, numbered from 0.
fn has_all(list: &Lines, by: u32) -> bool {
    let mut seq = 0;
    for line in &list.lines {
        if line.by == by {
            if line.seq != seq {
                return false;
            }
            seq = seq.wrapping_add(1);
        }
    }
    seq == 1_000
}

// Whether the word is that of 2,000 lines.
fn is_last(word: u64, list: &Lines) -> bool {
    match list.lines.last() {
        Some(last) => word == 64 * 2_000 + u64::from(last.display),
        None => false,
    }
}

fn check(by: &impl Abort, word: u64, list: &Lines, done: bool) {
    assert!(by; done, "each line was published");
    assert!(by; list.lines.len() == 2_000, "the lines");
    assert!(by; has_all(list, 1), "the lines of 1");
    assert!(by; has_all(list, 2), "the lines of 2");
    assert!(by; is_last(word, list), "the word");
}

#[test]
fn two_threads_make_one_history(rt: HostRuntime) -> Result<(), Fail> {
    let (word, list, done) = race(&rt, rt.alloc())?;
    check(&rt, word, &list, done);
    Ok(())
}

#[test]
fn front_is_read_while_the_lock_is_held(rt: HostRuntime) -> Result<(), Fail> {
    let beside = read_beside(&rt, rt.alloc())?;
    assert_eq!(rt; beside.entered, 7);
    assert_eq!(rt; beside.added, 7);
    assert_eq!(rt; beside.published, 64 + 9);
    assert!(rt; beside.refused, "the list was stopped");
    assert_eq!(rt; beside.list.stop, Some(1));
    assert_eq!(rt; beside.list.lines.len(), 1);
    Ok(())
}
