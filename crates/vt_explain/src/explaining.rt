//! The certificate of a journal, found and judged.
ghost use Rattle.std.specs.Prelude.{◌≡◌, List, IfOk};
ghost use Rattle.session_order.specs.Sessions.{setup_of, start_of};
ghost use Rattle.vt_check.specs.Verdicts.{Judges};
ghost use Rattle.vt_check.specs.declared.verdict.Verdict.{Verdict};
ghost use Rattle.vt_explain.specs.Accepting.{Accepts, IfCert, verdict_of};
ghost use Rattle.vt_explain.specs.Certificates.{IsCertificate};
ghost use Rattle.vt_explain.specs.declared.hop_why.HopWhy.{HopWhy};
ghost use Rattle.vt_explain.specs.declared.judged.Judged.{Judged};
ghost use Rattle.vt_explain.specs.declared.judged.Judged.TheVariants as judged;
ghost use Rattle.vt_switch.specs.Law.{IsLawful};
ghost use Rattle.vt_world.specs.Laws.{moments};

use crate::comparing::compare;
use crate::reader::Reader;
use crate::{Explained, HopWhy, Judged};
use session_text::Session;
use std::alloc::Global;
use vt_base::NoMemory;
use vt_check::{Verdict, watch};
use vt_journal::Journal;

/// The certificate of the journal's switches if the journal is legal, or its verdict.
pub fn explain(alloc: Global, s: &Session, j: &Journal) -> Result<Explained, NoMemory>
    ensures judges { IfOk result
        (λ x. Judges (setup_of s.now) j.now.entries j.now.tail (verdict_of x)) }
    ensures verdict { IfOk result (λ x. (v : Verdict)
        → Judges (setup_of s.now) j.now.entries j.now.tail v → v ≡ verdict_of x) }
    ensures cert { IfOk result
        (λ x. IfCert x (IsCertificate (moments (start_of s.now) j.now.entries))) }
    ensures only { IfOk result (λ x. IfCert x (λ c. (other : List HopWhy)
        → IsCertificate (moments (start_of s.now) j.now.entries) other → other ≡ c)) }
{
    let mut reader = Reader::new(alloc);
    let verdict = watch(alloc, s, j, &mut reader)?;
    match verdict {
        Verdict::Legal => Ok(Explained::Cert(reader.into_items())),
        Verdict::Illegal { index, why } => Ok(Explained::Illegal { index, why }),
    }
}

/// Whether the items are the certificate of the journal, if that is legal. It finds the certificate itself and
/// trusts no item.
#[tactic(auto, using(crate::proofs::Stated::one_acceptance))]
pub fn accept(alloc: Global, s: &Session, j: &Journal, c: &[HopWhy]) -> Result<Judged, NoMemory>
    ensures accepts { IfOk result
        (Accepts (setup_of s.now) j.now.entries j.now.tail c.now) }
    ensures one { IfOk result (λ r. (other : Judged)
        → Accepts (setup_of s.now) j.now.entries j.now.tail c.now other → other ≡ r) }
    ensures lawful { IfOk result (λ r. r ≡ judged.Yes
        → IsLawful (moments (start_of s.now) j.now.entries)) }
{
    let judged = judge_items(alloc, s, j, c)?;
    Ok(judged)
}

fn judge_items(alloc: Global, s: &Session, j: &Journal, c: &[HopWhy]) -> Result<Judged, NoMemory>
    ensures { IfOk result (Accepts (setup_of s.now) j.now.entries j.now.tail c.now) }
{
    let explained = explain(alloc, s, j)?;
    match explained {
        Explained::Cert(items) => {
            let judged = compare(items.as_slice(), c)?;
            Ok(judged)
        }
        Explained::Illegal { index, why } => Ok(Judged::Illegal { index, why }),
    }
}
