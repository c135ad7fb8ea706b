//! Laws of the outcomes of commands.
ghost use Rattle.std.specs.Prelude.{ℕ};
ghost use Rattle.vt_tool.specs.Commands.Judging.{OneOutcomeOf};
ghost use Rattle.vt_tool.specs.Laws.{OneOutcome, RaceMayPlay, RunDecides};
ghost use Rattle.vt_tool.specs.declared.commands.judge_request.JudgeRequest.TheVariants.{Verdict, Review, Explanation, Acceptance};

/// `check` gives one outcome for an input.
pub fn one_check()
    ensures { OneOutcomeOf Verdict }
{}

/// `review` gives one outcome for its numbers and an input.
pub fn one_review()
    ensures { (kinds console : ℕ) → OneOutcomeOf (Review kinds console) }
{}

/// `explain` gives one outcome for an input.
pub fn one_explain()
    ensures { OneOutcomeOf Explanation }
{}

/// `accept` gives one outcome for an input.
pub fn one_accept()
    ensures { OneOutcomeOf Acceptance }
{}

/// Each command that needs no threads gives one outcome for an input.
pub fn one_outcome()
    ensures { OneOutcome }
{}

/// `race` gives one outcome for an input and a run, and may give what `play` gives.
pub fn race_outcomes()
    ensures decided { RunDecides }
    ensures played { RaceMayPlay }
{}
