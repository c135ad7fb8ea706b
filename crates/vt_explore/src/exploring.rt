ghost use Rattle.std.specs.Prelude.{◌≡◌, ◌<◌, ℕ, List, [], ◌∷◌, Some, None, IfOk, OnOk, true, length, map, slice_get};
ghost use Rattle.session_order.specs.Sessions.{setup_of};
ghost use Rattle.vt_explore.specs.Findings.{AreFirst, AreFoundFor, AreNone, is_found};
ghost use Rattle.vt_explore.specs.Held.{IsPool};
ghost use Rattle.vt_explore.specs.Questions.{AreFound, AreNever, HasStates, IfAnswered, IfLimit, IfWhole};

use crate::findings::Findings;
use crate::opened::Opened;
use crate::pool::Pool;
use crate::search::Search;
use crate::{End, Outcome, Progress, Question};
use session_order::session_laws;
use session_text::Session;
use std::alloc::Global;
use vt_base::NoMemory;

/// Goes through the orders of the session's calls, those with fewer turns first, until it has for each question
/// an order in which a call is made that the question asks for, or knows more than `limit` orders that lead to
/// different states. If `whole`, it goes on after it has them.
pub fn explore<Q: Question, P: Progress>(
    alloc: Global,
    s: &Session,
    questions: &[Q],
    limit: usize,
    whole: bool,
    progress: &mut P,
) -> Result<Outcome, NoMemory>
    ensures places { IfOk result (λ outcome. length outcome.found ≡ length questions.now) }
    ensures found { IfOk result (λ outcome. AreFound (map Q.wants questions.now) s.now outcome.found) }
    ensures never { IfOk result (λ outcome.
        IfWhole outcome.end (AreNever (map Q.wants questions.now) s.now outcome.found)) }
    ensures limit { IfOk result (λ outcome. IfLimit outcome.end (limit < outcome.states)) }
    ensures states { IfOk result (λ outcome. HasStates outcome.end limit outcome.states) }
    ensures whole { IfOk result (λ outcome. whole ≡ true → IfAnswered outcome.end ⊥) }
    ensures answered { IfOk result (λ outcome.
        IfAnswered outcome.end ((i : ℕ) → slice_get outcome.found i ≡ Some None → ⊥)) }
{
    session_laws(s);
    let mut pool = Pool::start(alloc, s)?;
    let mut findings = Findings::none(alloc);
    let mut search = Search::start(alloc, s, &pool)?;
    let end = go_through(
        alloc,
        s,
        questions,
        limit,
        whole,
        progress,
        &mut pool,
        &mut search,
        &mut findings,
    )?;
    let found = findings.orders(alloc, questions.len())?;
    Ok(Outcome {
        found,
        end,
        states: search.len(),
        calls: search.calls(),
    })
}

// Opens the known orders one after another. Returns where it ended.
fn go_through<Q: Question, P: Progress>(
    alloc: Global,
    s: &Session,
    questions: &[Q],
    limit: usize,
    whole: bool,
    progress: &mut P,
    pool: &mut Pool,
    search: &mut Search,
    findings: &mut Findings,
) -> Result<End, NoMemory>
    requires pool { IsPool (setup_of s.now) pool.old }
    requires search { search.now ≡ [] ∷ [] }
    requires findings { findings.now ≡ [] }
    ensures first { OnOk result (AreFirst (map Q.wants questions.now) (setup_of s.now) findings.new) }
    ensures none { IfOk result (λ end.
        IfWhole end (AreNone (map Q.wants questions.now) (setup_of s.now) findings.new)) }
    ensures states { IfOk result (λ end. HasStates end limit (length search.new)) }
    ensures whole { IfOk result (λ end. whole ≡ true → IfAnswered end ⊥) }
    ensures answered { IfOk result (λ end.
        IfAnswered end ((i : ℕ) → i < length questions.now → is_found findings.new i ≡ true)) }
{
    if limit == 0 {
        return Ok(End::Limit);
    }
    for next in 0..limit {
        let Some(order) = search.at(next) else {
            return Ok(End::Whole);
        };
        let base = pool.after(alloc, s, next, order, true)?;
        let opened = search.expand(alloc, s, questions, limit, pool, findings, &base)?;
        pool.give(s, base)?;
        match opened {
            Opened::Long => return Ok(End::Long),
            Opened::Many => return Ok(End::Limit),
            Opened::All => {}
        }
        progress.tell(search.len());
        if !whole && findings.have_all(questions.len()) {
            return Ok(End::Answered);
        }
    }
    Ok(End::Whole)
}
