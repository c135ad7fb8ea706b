ghost use Rattle.std.specs.Prelude.{◌≡◌, ◌≤◌, ◌==◌, List, [], ◌∷◌, ◌++◌, count_by, length, Option, Some, All, IfOk};
ghost use Rattle.session_order.specs.Calls.{calls_by, next_by};
ghost use Rattle.session_order.specs.Standing.{AreAfter, IsWalkAfter};
ghost use Rattle.session_text.specs.Programs.{Call, next, program_of};
ghost use Rattle.session_text.specs.Walks.{Stands};
ghost use Rattle.session_text.specs.declared.program.Program.{Program};
ghost use Rattle.vt_base.specs.Limits.{callers};
ghost use Rattle.vt_events.specs.Plain.{plain_event, plain_reply};
ghost use Rattle.vt_events.specs.declared.entry.Entry.{Entry};
ghost use Rattle.vt_events.specs.declared.event.Event.{Event};

mod same;

use crate::counts::Counts;
use session_text::{Program, Walk};
use std::alloc::Global;
use std::marker::Model;
use vt_base::{CALLERS, CallerNo, NoMemory};
use vt_events::Reply;

/// The progress of the callers of a session: the place of each one's walk through its program, and how many
/// calls it made.
#[derive(Drop)]
pub struct SessionProgress {
    walks: Vec<Walk>,
    counts: Counts,
}

impl Model for SessionProgress {
    ghost use Rattle.std.specs.Prelude.{◌≡◌, vec_len};
    ghost use Rattle.session_order.specs.Standing.{SessionProgressView};

    ghost Value = { SessionProgressView };

    ghost view = { λ s. record { walks = s.walks.items; counts = s.counts } };

    ghost invariant = { λ s. vec_len s.walks ≡ 68 };
}

impl SessionProgress {
    /// Nothing was called yet.
    pub fn start(alloc: Global) -> Result<SessionProgress, NoMemory>
        ensures { IfOk result (λ s. (programs : List Program) → AreAfter programs [] s) }
    {
        let walks = first_walks(alloc)?;
        Ok(SessionProgress {
            walks,
            counts: Counts::new(),
        })
    }

    /// The caller's walk. Its next call is the next call of the caller's program.
    pub fn walk(&self, p: CallerNo) -> &Walk
        ensures stands { (programs : List Program) (h : List Entry) (program : Program)
            → program_of programs p ≡ Some program → AreAfter programs h self.now
            → IsWalkAfter program result.now (calls_by p h) }
        ensures next { (programs : List Program) (h : List Entry) (program : Program)
            (e : Option Event) → program_of programs p ≡ Some program
            → AreAfter programs h self.now
            → ((made : List Call) → Stands program result.now made → e ≡ next program made)
            → e ≡ next_by programs p h }
    {
        &self.walks[usize::from(p.get())]
    }

    /// How many calls the caller made.
    pub fn count(&self, p: CallerNo) -> u32
        ensures { (programs : List Program) (h : List Entry) → AreAfter programs h self.now
            → result ≡ count_by (λ entry. entry.caller == p) h }
    {
        p.stays_in_range();
        self.counts.of(p)
    }

    /// Records that the caller made the next call of its program and got this answer.
    pub fn took(&mut self, p: CallerNo, program: &Program, r: &Reply)
        ensures { (programs : List Program) (h : List Entry) (entry : Entry)
            → program_of programs p ≡ Some program.now → AreAfter programs h self.old
            → length h ≤ 1_000_000 → entry.caller ≡ p
            → next_by programs p h ≡ Some (plain_event entry.event)
            → plain_reply entry.reply ≡ plain_reply r.now
            → AreAfter programs (h ++ entry ∷ []) self.new }
    {
        let walk = &mut self.walks[usize::from(p.get())];
        walk.took(program, r);
        self.counts.add(p);
    }
}

// A walk for each caller, of which nothing was called.
fn first_walks(alloc: Global) -> Result<Vec<Walk>, NoMemory>
    ensures many { IfOk result (λ walks. length walks.items ≡ callers) }
    ensures stand { IfOk result (λ walks.
        All (λ walk. (p : Program) → Stands p walk []) walks.items) }
{
    let mut walks = Vec::with_capacity(alloc, CALLERS)?;
    for _caller in 0..CALLERS {
        walks.push(Walk::start())?;
    }
    Ok(walks)
}
