//! The check of a journal, and a replay of it for a witness.
ghost use Rattle.std.specs.Prelude.{◌≡◌, ◌↔◌, ℕ, [], take, IfOk, OnErr};
ghost use Rattle.session_order.specs.Sessions.{IsRightHistory, setup_of, start_of};
ghost use Rattle.vt_check.specs.Verdicts.{IsRightJournal, Judges};
ghost use Rattle.vt_check.specs.Watching.{HasSeenSome};
ghost use Rattle.vt_check.specs.declared.verdict.Verdict.{Verdict};
ghost use Rattle.vt_check.specs.declared.verdict.Verdict.TheVariants as verdict;
ghost use Rattle.vt_world.specs.History.{replay};

use crate::judge::Judge;
use crate::witness::Nobody;
use crate::{Verdict, Witness};
use session_order::session_laws;
use session_text::Session;
use std::alloc::Global;
use vt_base::NoMemory;
use vt_journal::Journal;

/// The verdict on the journal.
pub fn check(alloc: Global, s: &Session, j: &Journal) -> Result<Verdict, NoMemory>
    ensures judges { IfOk result (Judges (setup_of s.now) j.now.entries j.now.tail) }
    ensures one { IfOk result (λ v. (other : Verdict)
        → Judges (setup_of s.now) j.now.entries j.now.tail other → other ≡ v) }
    ensures legal { IfOk result (λ v. (v ≡ verdict.Legal)
        ↔ IsRightJournal (setup_of s.now) j.now.entries j.now.tail) }
    ensures right { IfOk result (λ v. v ≡ verdict.Legal → IsRightHistory s.now
        (replay (start_of s.now) j.now.entries) j.now.entries j.now.tail) }
{
    let mut nobody = Nobody;
    let verdict = watch(alloc, s, j, &mut nobody)?;
    Ok(verdict)
}

/// The verdict on the journal, the same as that of `check`. The witness, which has seen nothing yet, is shown
/// each entry before the first that fails. If memory runs out, it has seen the first entries, and perhaps a part of
/// the next one.
pub fn watch<W: Witness>(
    alloc: Global,
    s: &Session,
    j: &Journal,
    witness: &mut W,
) -> Result<Verdict, NoMemory>
    requires { W.saw witness.old (start_of s.now) [] witness.old }
    ensures judges { IfOk result (Judges (setup_of s.now) j.now.entries j.now.tail) }
    ensures right { IfOk result (λ v. v ≡ verdict.Legal → IsRightHistory s.now
        (replay (start_of s.now) j.now.entries) j.now.entries j.now.tail) }
    ensures saw { IfOk result (λ v. v ≡ verdict.Legal
        → W.saw witness.old (start_of s.now) j.now.entries witness.new) }
    ensures before { IfOk result (λ v. (index why : ℕ) → v ≡ verdict.Illegal index why
        → W.saw witness.old (start_of s.now) (take index j.now.entries) witness.new) }
    ensures some { OnErr result
        (HasSeenSome W.saw W.saw_part witness.old (start_of s.now) j.now.entries witness.new) }
{
    session_laws(s);
    let entries = j.entries.as_slice();
    let mut judge = Judge::open(alloc, s)?;
    for i in 0..entries.len() {
        let entry = &entries[i];
        if let Some(why) = judge.judge(alloc, entry)? {
            return Ok(Verdict::Illegal {
                index: i as u32,
                why,
            });
        }
        witness.see(alloc, i as u32, entry, &judge.world)?;
    }
    match judge.judge_end(alloc, &j.tail)? {
        Some(why) => Ok(Verdict::Illegal {
            index: entries.len() as u32,
            why,
        }),
        None => Ok(Verdict::Legal),
    }
}
