//! A law of verdicts: a journal of a session has one, and it is legal exactly if the journal is right.
ghost use Rattle.vt_check.specs.Verdicts.{LegalIsRight, OneVerdict, VerdictIsRight};

/// There is one verdict on a journal; it is legal exactly if the journal is right.
pub fn one_verdict()
    ensures one { OneVerdict }
    ensures legal { LegalIsRight }
    ensures right { VerdictIsRight }
{}
