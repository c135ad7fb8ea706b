//! `review K N`: the notices of the journal after a session, for one ear.
ghost use Rattle.std.specs.Prelude.{◌≡◌, ◌≤◌, ◌-◌, ◌^◌, ◌==◌, [], ◌∷◌, if◌then◌else◌, IfOk};
ghost use Rattle.vt_tool.specs.Commands.Review.{IsReviewed, ear_of};

use crate::answer::Answer;
use session_text::Session;
use std::alloc::Global;
use vt_base::NoMemory;
use vt_journal::Journal;
use vt_review::{Ear, EarTable, Listener, Notice, Reviewed, review};

/// The notices of the journal of these kinds and this console, or of all consoles if it is 0.
pub(crate) fn answer(
    alloc: Global,
    kinds: u8,
    console: u8,
    session: &Session,
    journal: &Journal,
) -> Result<Answer, NoMemory>
    requires { console ≤ 63 }
    ensures { IfOk result (IsReviewed (ear_of kinds console) session.now journal.now) }
{
    let table = EarTable {
        kinds,
        consoles: consoles_heard(console),
    };
    answer_by(
        alloc,
        move |n: Notice| table.says(n),
        table,
        session,
        journal,
    )
}

// The notices of the journal for an ear over this listener.
fn answer_by<F: Listener>(
    alloc: Global,
    f: F,
    table: EarTable,
    session: &Session,
    journal: &Journal,
) -> Result<Answer, NoMemory>
    requires { F.hears f table }
    ensures { IfOk result (IsReviewed table session.now journal.now) }
{
    let ears = one_ear(alloc, f, table)?;
    match review(alloc, session, journal, ears.as_slice())? {
        Reviewed::Text(text) => Ok(Answer::fine(text)),
        Reviewed::Illegal { index, why } => Ok(Answer::illegal(alloc, index, why)),
    }
}

// An ear over this listener.
fn one_ear<F: Listener>(alloc: Global, f: F, table: EarTable) -> Result<Vec<Ear<F>>, NoMemory>
    requires { F.hears f table }
    ensures { IfOk result (λ ears. ears.items ≡ table ∷ []) }
{
    let mut ears = Vec::new(alloc);
    ears.push(Ear::new(f, table))?;
    Ok(ears)
}

// The consoles that are heard: this one, or all for 0.
fn consoles_heard(console: u8) -> u64
    requires { console ≤ 63 }
    ensures { result ≡ if console == 0 then 2 ^ 64 - 1 else 2 ^ console }
{
    if console == 0 { u64::MAX } else { 1 << console }
}
