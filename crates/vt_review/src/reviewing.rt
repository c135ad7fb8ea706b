//! The review of a journal.
ghost use Rattle.std.specs.Prelude.{◌≡◌, ◌↔◌, IfOk};
ghost use Rattle.session_order.specs.Sessions.{setup_of};
ghost use Rattle.vt_check.specs.Verdicts.{IsRightJournal, Judges};
ghost use Rattle.vt_check.specs.declared.verdict.Verdict.{Verdict};
ghost use Rattle.vt_check.specs.declared.verdict.Verdict.TheVariants as verdict;
ghost use Rattle.vt_review.specs.Reviews.{TellsHistory, verdict_of};

use crate::reviewer::Reviewer;
use crate::{Ear, Listener, Reviewed};
use session_order::start_of;
use session_text::Session;
use std::alloc::Global;
use vt_base::NoMemory;
use vt_check::{Verdict, watch};
use vt_journal::Journal;

/// The lines of these ears over the journal if it is legal, or its verdict. Each ear is asked once for each
/// notice.
pub fn review<F: Listener>(
    alloc: Global,
    s: &Session,
    j: &Journal,
    ears: &[Ear<F>],
) -> Result<Reviewed, NoMemory>
    ensures judges { IfOk result (λ r.
        Judges (setup_of s.now) j.now.entries j.now.tail (verdict_of r)) }
    ensures one { IfOk result (λ r. (other : Verdict)
        → Judges (setup_of s.now) j.now.entries j.now.tail other → other ≡ verdict_of r) }
    ensures legal { IfOk result (λ r. (verdict_of r ≡ verdict.Legal)
        ↔ IsRightJournal (setup_of s.now) j.now.entries j.now.tail) }
    ensures tells { IfOk result (TellsHistory s.now j.now ears.now) }
{
    let world = start_of(alloc, s)?;
    let mut reviewer = Reviewer::new(alloc, world, ears);
    let verdict = watch(alloc, s, j, &mut reviewer)?;
    match verdict {
        Verdict::Illegal { index, why } => Ok(Reviewed::Illegal { index, why }),
        Verdict::Legal => Ok(Reviewed::Text(reviewer.into_text())),
    }
}
