//! The verdict on a journal.
ghost use Rattle.std.specs.Prelude.{◌≡◌, ◌≤◌, ◌↔◌, length, IfOk};
ghost use Rattle.vt_free.specs.Verdicts.{IsFree, JudgesFree};
ghost use Rattle.vt_free.specs.declared.free_verdict.FreeVerdict.{FreeVerdict};
ghost use Rattle.vt_free.specs.declared.free_verdict.FreeVerdict.TheVariants as verdict;

use crate::FreeVerdict;
use crate::free_judge::FreeJudge;
use std::alloc::Global;
use vt_base::NoMemory;
use vt_events::Entry;
use vt_journal::{Limits, Tail};
use vt_world::World;

/// The number of the reason that the last line isn't that of the entries.
const OTHER_END: u8 = 5;

/// The verdict on these entries and this last line, as a journal of calls from this start on. The limits matter only if
/// the last line has a call that found no room.
pub fn judge(
    alloc: Global,
    start: World,
    limits: Limits,
    entries: &[Entry],
    end: &Tail,
) -> Result<FreeVerdict, NoMemory>
    requires few { length entries.now ≤ 4_294_967_295 }
    ensures judges { IfOk result (JudgesFree start limits entries.now end.now) }
    ensures one { IfOk result (λ v. (other : FreeVerdict)
        → JudgesFree start limits entries.now end.now other → other ≡ v) }
    ensures legal { IfOk result (λ v. (v ≡ verdict.Legal) ↔ IsFree start limits entries.now end.now) }
{
    let mut judge = FreeJudge::open(start);
    for i in 0..entries.len() {
        if let Some(why) = judge.judge(alloc, &entries[i])? {
            return Ok(FreeVerdict::Illegal {
                index: i as u32,
                why,
            });
        }
    }
    if !judge.has_tail(limits, end) {
        return Ok(FreeVerdict::Illegal {
            index: entries.len() as u32,
            why: OTHER_END,
        });
    }
    Ok(FreeVerdict::Legal)
}
