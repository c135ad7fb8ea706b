//! A law of verdicts on journals of machines that programs outside call: each has one.
ghost use Rattle.vt_free.specs.Verdicts.{LegalIsFree, OneFreeVerdict};

/// There is one verdict on a journal; it is legal exactly if the entries are a legal history and the last line is
/// theirs.
pub fn one_free_verdict()
    ensures one { OneFreeVerdict }
    ensures legal { LegalIsFree }
{}
